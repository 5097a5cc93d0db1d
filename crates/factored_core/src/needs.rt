// What a call needs before it can be done.
ghost use Rattle.std.specs.Prelude.{◌≡◌, Some};
ghost use Rattle.factored_core.specs.Needs.{other_than as other_than_is, other_at as other_at_is, needs_of};

use cqc_model::Remote;
use network_model::{After, Call, Kind, kind_of};
use virtual_node::{NodeCell, Shape};

/// What a call needs: the number under its own id, the number under the other id of a gate on two, whether it can touch
/// the pool of free numbers and slots, whether it can take a free slot, and the other node of a transfer.
#[derive(Clone, Copy, PartialEq, Eq, Debug, Drop)]
pub struct Needs {
    pub first: Option<u8>,
    pub second: Option<u8>,
    pub pool: bool,
    pub slot: bool,
    pub other: Option<u8>,
}

// What a receipt needs.
pub(crate) const NOTHING: Needs = Needs {
    first: None,
    second: None,
    pool: false,
    slot: false,
    other: None,
};

/// What a call needs, from the settings and its own node.
#[tactic(auto, unfolding(crate::specs::Needs::first_of, crate::specs::Needs::number_at, crate::specs::Needs::may_touch_pool, crate::specs::Needs::takes_slot, crate::specs::Needs::other_of, crate::specs::Needs::other_at, network_model::specs::Kinds::takes_qubit, network_model::specs::Kinds::second_of, network_model::specs::Kinds::remote_of, network_model::specs::Kinds::is_making, network_model::specs::Kinds::is_measurement))]
pub fn call_needs(shape: &Shape, call: &Call, node: &NodeCell) -> Needs
    ensures { result ≡ needs_of shape.now call.now node.now }
{
    let own = Needs {
        first: node.handles().find(call.app, call.command.qubit),
        ..NOTHING
    };
    match kind_of(&call.command.instr) {
        Kind::Idle | Kind::Gate(_) | Kind::Inexact | Kind::Unrolled => own,
        Kind::Two(_, id) => Needs {
            second: node.handles().find(call.app, id),
            pool: true,
            ..own
        },
        Kind::Measure(After::TakenOut, _) => Needs { pool: true, ..own },
        Kind::Measure(_, _) => Needs {
            pool: true,
            slot: true,
            ..own
        },
        Kind::Make => Needs {
            pool: true,
            slot: true,
            ..NOTHING
        },
        Kind::Pair(remote) => Needs {
            pool: true,
            slot: true,
            other: other_at(shape, call.node, &remote),
            ..NOTHING
        },
        Kind::Send(remote) => Needs {
            other: other_at(shape, call.node, &remote),
            ..own
        },
        Kind::Receive(_) => NOTHING,
    }
}

/// The node at a remote place, if there is one and it is not the own one.
#[tactic(auto, unfolding(crate::specs::Needs::other_at, network_model::specs::Step::node_at))]
pub(crate) fn other_at(shape: &Shape, own: u8, remote: &Remote) -> Option<u8>
    ensures { result ≡ other_at_is shape.now own (Some remote.now) }
{
    other_than(own, shape.find(remote.node, remote.port))
}

// A node, if it is not the own one.
#[tactic(auto, unfolding(crate::specs::Needs::other_than))]
fn other_than(own: u8, node: Option<u8>) -> Option<u8>
    ensures { result ≡ other_than_is own node }
{
    match node {
        Some(other) if other != own => Some(other),
        _ => None,
    }
}
