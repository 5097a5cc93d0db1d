//! Transfers: a qubit goes from an application's handles into a queue, or out of a queue to an application.
//! Each qubit that moves is in its new place alone, and all else stays. No call takes memory.
#![tactic(auto)]

ghost use Rattle.std.specs.Prelude.{◌≡◌, ◌<◌, IsSome, IsSomeAnd, IfSome, is_some};
ghost use Rattle.network_model.specs.Network.{line_eq};
ghost use Rattle.network_model.specs.Step.{least_free};
ghost use Rattle.network_model.specs.declared.Line.TheVariants.{Pair};
ghost use Rattle.qubit_handles.specs.Handle.{number_of, ids_of};
ghost use Rattle.virtual_node.specs.Node.{load_of, with_handle, without_held, with_arrival};
ghost use Rattle.epr_transfer.specs.Transfer.{handle_of, sent_to, half_for, taken_by, received_by};

use cqc_model::PairInfo;
use qubit_handles::Handle;
use virtual_node::{Arrival, Line, Look, NodeCell};

#[cfg(test)]
mod tests;

/// What an application gets with a received qubit: its id, and for half of a pair what is told of it.
#[derive(Clone, Copy, PartialEq, Eq, Debug, Drop)]
pub struct Taken {
    pub id: u16,
    pub info: Option<PairInfo>,
}

/// Sends the qubit that an application holds under an id: its handle goes, and it is the last arrival of the other node.
/// The application holds it, and the other node has room.
#[tactic(auto, unfolding(network_model::specs::Network::line_eq))]
pub fn send(from: &mut NodeCell, to: &mut NodeCell, app: u16, id: u16, to_app: u16)
    requires held { IsSome (number_of from.old.handles app id) }
    requires room { load_of to.old < 16 }
    ensures from { from.new ≡ without_held from.old app id }
    ensures to { IsSomeAnd (number_of from.old.handles app id) (λ number. to.new ≡ with_arrival to.old (sent_to to_app number)) }
{
    let number = from.drop_handle(app, id);
    let sent = Arrival {
        app: to_app,
        line: Line::Sent,
        number,
        info: None,
    };
    to.push_arrival(sent);
}

/// Gives the two halves of a new pair away, and the id of the first: the application gets the first under its least id,
/// and the second is the last arrival of the other node. Both nodes have room.
#[tactic(auto, unfolding(network_model::specs::Network::line_eq))]
pub fn pair(
    from: &mut NodeCell,
    to: &mut NodeCell,
    app: u16,
    to_app: u16,
    first: u8,
    second: u8,
    info: PairInfo,
) -> u16
    requires from_room { load_of from.old < 16 }
    requires to_room { load_of to.old < 16 }
    ensures id { result ≡ least_free (ids_of from.old.handles app) }
    ensures from { from.new ≡ with_handle from.old (handle_of app result first) }
    ensures to { to.new ≡ with_arrival to.old (half_for to_app second info) }
{
    let id = from.handles().least_id(app);
    from.add_handle(Handle {
        app,
        id,
        number: first,
    });
    let half = Arrival {
        app: to_app,
        line: Line::Pair,
        number: second,
        info: Some(info),
    };
    to.push_arrival(half);
    id
}

/// Receives the first qubit that waits for an application on a line, under the application's least id.
/// There is none exactly where nothing waits there, and then nothing changes.
pub fn receive(node: &mut NodeCell, app: u16, line: Line) -> Option<Taken>
    ensures taken { result ≡ taken_by node.old app line }
    ensures informed { IfSome result (λ taken. is_some taken.info ≡ line_eq line Pair) }
    ensures node { node.new ≡ received_by node.old app line }
{
    let Look::Here { place } = node.look(app, line) else {
        return None;
    };
    let arrival = node.take(place);
    let id = node.handles().least_id(app);
    node.add_handle(Handle {
        app,
        id,
        number: arrival.number,
    });
    Some(Taken {
        id,
        info: arrival.info,
    })
}
