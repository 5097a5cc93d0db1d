//! Gates of two qubits on a register: rows are exchanged or negated, in place in a prepared value, else from the
//! register's value to the next one in one pass.
ghost use Rattle.std.specs.Prelude.{◌≡◌, ◌≢◌, ◌<◌, length};
ghost use Rattle.amplitude_register.specs.States.{prepared, next_value, IsPrepared, IsTwoGateStep};
ghost use Rattle.gate_kernels.specs.Twos.{source, IsTwoApplied};

use amplitude_register::Register;
use state_model::Two;

/// Prepares what a gate makes of the prepared value, or of the register's where none is prepared, on the qubits at
/// two places. The first is the control of CNOT.
pub fn prepare_two(reg: &mut Register, p: u8, q: u8, gate: Two)
    requires apart { p ≢ q }
    requires one { p < length (source reg.old).qubits }
    requires two { q < length (source reg.old).qubits }
    ensures { IsTwoApplied gate p q reg.old reg.new }
{
    reg.facts();
    apply(reg, p, q, gate);
    reg.facts();
}

/// Applies the gate to the prepared value, or to the register's where none is prepared.
fn apply(reg: &mut Register, p: u8, q: u8, gate: Two)
    requires apart { p ≢ q }
    requires one { p < length (source reg.old).qubits }
    requires two { q < length (source reg.old).qubits }
    ensures { IsTwoGateStep gate p q (record reg.old { next = prepared (source reg.old) }) reg.new }
{
    if reg.prepared().is_some() {
        change_rows(reg, p, q, gate);
    } else {
        write_rows(reg, p, q, gate);
    }
}

/// Exchanges or negates rows of the prepared value.
fn change_rows(reg: &mut Register, p: u8, q: u8, gate: Two)
    requires prepared { IsPrepared reg.old.next }
    requires apart { p ≢ q }
    requires one { p < length (next_value reg.old.next).qubits }
    requires two { q < length (next_value reg.old.next).qubits }
    ensures { IsTwoGateStep gate p q reg.old reg.new }
{
    match gate {
        Two::Cnot => reg.exchange_rows_where(p, q),
        Two::Cphase => reg.negate_rows_where(p, q),
    }
}

/// Prepares the register's value with rows exchanged or negated.
fn write_rows(reg: &mut Register, p: u8, q: u8, gate: Two)
    requires apart { p ≢ q }
    requires one { p < length reg.old.value.qubits }
    requires two { q < length reg.old.value.qubits }
    ensures { IsTwoGateStep gate p q (record reg.old { next = prepared reg.old.value }) reg.new }
{
    match gate {
        Two::Cnot => reg.prepare_exchanged_where(p, q),
        Two::Cphase => reg.prepare_negated_where(p, q),
    }
}
