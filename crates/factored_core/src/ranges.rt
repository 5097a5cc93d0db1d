// The numbers of a call lie in the ranges of their types.
ghost use Rattle.std.specs.Prelude.{◌≡◌, ◌<◌, ◌^◌, true};
ghost use Rattle.cqc_model.specs.Ranges.{is_in_range};
ghost use Rattle.factored_core.specs.Ranges.{IsCallInRange};

use cqc_model::{Instr, Remote};
use network_model::Call;

/// What the types of a call's numbers say of them.
pub(crate) fn call_ranges(call: &Call)
    ensures { IsCallInRange call.now }
{
    let _seat = call.seat;
    let _serial = call.serial;
    let _app = call.app;
    let _qubit = call.command.qubit;
    instr_range(&call.command.instr)
}

#[tactic(auto, unfolding(cqc_model::specs::Ranges::is_in_range, cqc_model::specs::Ranges::is_remote_in_range))]
fn instr_range(instr: &Instr)
    ensures { is_in_range instr.now ≡ true }
{
    match instr {
        Instr::Send(remote) | Instr::Epr(remote) => remote_range(remote),
        Instr::RotX(step) | Instr::RotY(step) | Instr::RotZ(step) => {
            let _step = *step;
        }
        Instr::Cnot(id) | Instr::Cphase(id) => {
            let _id = *id;
        }
        _ => {}
    }
}

fn remote_range(remote: &Remote)
    ensures app { remote.now.app < 2 ^ 16 }
    ensures port { remote.now.port < 2 ^ 16 }
    ensures node { remote.now.node < 2 ^ 32 }
{
    let _app = remote.app;
    let _port = remote.port;
    let _node = remote.node;
}
