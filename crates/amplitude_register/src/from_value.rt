//! Next values that a gate makes of a register's value in one pass.
#![tactic(auto, using(crate::proofs::Fields::block_room, crate::proofs::FromValues::headed_fit))]

ghost use Rattle.std.specs.Prelude.{◌≡◌, ◌≢◌, ◌<◌, length, MatchResult};
ghost use Rattle.state_model.specs.Gate.{matrix};
ghost use Rattle.state_model.specs.declared.Gate.TheVariants.{H, RotZ};
ghost use Rattle.state_model.specs.declared.Two.TheVariants.{Cnot, Cphase};
ghost use Rattle.amplitude_register.specs.States.{draft, prepared, IsGateStep, IsGateSealed, IsTwoGateStep, IsSealed, IsRefused};

use crate::block::Stage;
use crate::register::{Register, TooLarge};
use crate::{mixing, passes, two_passes};
use state_model::SIZE_LIMIT;

impl Register {
    /// Opens a draft of the sums and differences of the value's rows, as `begin_same` and `mix_rows` do.
    pub fn begin_mixed(&mut self, place: u8)
        requires { place < length self.old.value.qubits }
        ensures { IsGateStep (matrix H) place 2 (record self.old { next = draft self.old.value }) self.new }
    {
        self.next.take_head(&self.value);
        self.next.weight = self.value.weight.doubled();
        passes::mix_front_into(&mut self.next.entries, &self.value, place);
        self.stage = Stage::Weighed;
    }

    /// Prepares what the gate H makes of the value, reduced and balanced; TooLarge, with its least size, exactly where
    /// that is 2^60 or more, and then nothing is prepared. It ends as `begin_mixed` and `seal` by powers of 1 - w do.
    pub fn prepare_mixed(&mut self, place: u8) -> Result<(), TooLarge>
        requires { place < length self.old.value.qubits }
        ensures { IsGateSealed (matrix H) place 2 self.old (λ middle. MatchResult result (λ _. IsSealed middle self.new) (λ e. IsRefused middle self.new e.size)) }
    {
        self.next.take_head(&self.value);
        self.next.weight = mixing::mix_normal_front(&mut self.next.entries, &self.value, place);
        if self.next.weight.x < SIZE_LIMIT {
            self.stage = Stage::Prepared;
            Ok(())
        } else {
            let size = self.next.weight.x;
            self.stage = Stage::Empty;
            Err(TooLarge { size })
        }
    }

    /// Prepares the value with the rows turned whose bit at the place is 1, as `prepare_same` and `turn_rows` do.
    pub fn prepare_turned(&mut self, place: u8, eighths: u8)
        requires place { place < length self.old.value.qubits }
        requires eighths { eighths < 8 }
        ensures { IsGateStep (matrix (RotZ eighths)) place 1 (record self.old { next = prepared self.old.value }) self.new }
    {
        self.next.take_head(&self.value);
        passes::turn_front_into(&mut self.next.entries, &self.value, place, eighths);
        self.stage = Stage::Prepared;
    }

    /// Prepares the value with its rows exchanged as CNOT does, as `prepare_same` and `exchange_rows_where` do.
    pub fn prepare_exchanged_where(&mut self, control: u8, target: u8)
        requires apart { control ≢ target }
        requires control { control < length self.old.value.qubits }
        requires target { target < length self.old.value.qubits }
        ensures { IsTwoGateStep Cnot control target (record self.old { next = prepared self.old.value }) self.new }
    {
        self.next.take_head(&self.value);
        two_passes::exchange_front_into(&mut self.next.entries, &self.value, control, target);
        self.stage = Stage::Prepared;
    }

    /// Prepares the value with its rows negated as CPHASE does, as `prepare_same` and `negate_rows_where` do.
    pub fn prepare_negated_where(&mut self, one: u8, two: u8)
        requires apart { one ≢ two }
        requires one { one < length self.old.value.qubits }
        requires two { two < length self.old.value.qubits }
        ensures { IsTwoGateStep Cphase one two (record self.old { next = prepared self.old.value }) self.new }
    {
        self.next.take_head(&self.value);
        two_passes::negate_front_into(&mut self.next.entries, &self.value, one, two);
        self.stage = Stage::Prepared;
    }
}
