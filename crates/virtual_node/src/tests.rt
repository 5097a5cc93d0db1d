//! Worked nodes and settings.
ghost use Rattle.std.specs.Prelude.{◌≡◌, is_some};
ghost use Rattle.network_model.specs.Network.{line_eq};
ghost use Rattle.network_model.specs.declared.Line.TheVariants.{Pair};

use crate::{Arrival, Line, Look, NodeCell, Place, Shape};
use qubit_handles::Handle;

// A qubit that was sent to an application.
#[tactic(auto, unfolding(network_model::specs::Network::line_eq))]
fn sent(app: u16, number: u8) -> Arrival
    ensures { is_some result.info ≡ line_eq result.line Pair }
{
    Arrival {
        app,
        line: Line::Sent,
        number,
        info: None,
    }
}

#[test]
fn sixteen_are_held_and_wait(rt: HostRuntime) {
    let mut cell = NodeCell::new();
    for number in 0..8 {
        if cell.held() < 16 {
            let id = cell.handles().least_id(3);
            cell.add_handle(Handle { app: 3, id, number });
        }
    }
    for number in 8..20 {
        if cell.held() < 16 {
            cell.push_arrival(sent(5, number));
        }
    }
    assert!(rt; cell.held() == 16);
    assert!(rt; cell.handles().len() == 8);
    assert!(rt; cell.handles().find(3, 7) == Some(7));
}

#[test]
fn the_first_arrival_of_a_queue_is_seen_and_taken(rt: HostRuntime) {
    let mut cell = NodeCell::new();
    cell.push_arrival(sent(6, 1));
    cell.push_arrival(sent(5, 2));
    cell.push_arrival(sent(5, 3));
    assert!(rt; cell.look(5, Line::Pair) == Look::Empty);
    assert!(rt; cell.look(5, Line::Sent) == Look::Here { place: 1 });
    let copied = cell.copy();
    assert!(rt; cell.take(1).number == 2);
    assert!(rt; cell.look(5, Line::Sent) == Look::Here { place: 1 });
    assert!(rt; cell.look(6, Line::Sent) == Look::Here { place: 0 });
    assert!(rt; cell.held() == 2);
    assert!(rt; copied.held() == 3);
}

#[test]
fn a_dropped_handle_is_held_no_more(rt: HostRuntime) {
    let mut cell = NodeCell::new();
    cell.add_handle(Handle {
        app: 3,
        id: 0,
        number: 9,
    });
    assert!(rt; cell.drop_handle(3, 0) == 9);
    assert!(rt; cell.held() == 0);
}

#[test]
fn places_that_differ_in_port_alone_are_told_apart(rt: HostRuntime) {
    let one = Place {
        address: 0x7f00_0001,
        port: 8001,
    };
    let two = Place { port: 8002, ..one };
    let shape = Shape::new(&[one, two], 16, 12);
    assert!(rt; shape.nodes() == 2 && shape.room() == 16 && shape.limit() == 12);
    assert!(rt; shape.find(one.address, 8001) == Some(0));
    assert!(rt; shape.find(one.address, 8002) == Some(1));
    assert!(rt; shape.find(one.address, 8003).is_none());
    assert!(rt; shape.place(1) == two);
}
