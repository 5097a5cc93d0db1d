//! Worked transfers.
ghost use Rattle.std.specs.Prelude.{◌≡◌};
ghost use Rattle.virtual_node.specs.Node.{empty_node, with_handle};
ghost use Rattle.epr_transfer.specs.Transfer.{handle_of};

use crate::{Taken, pair, receive, send};
use cqc_model::PairInfo;
use qubit_handles::Handle;
use virtual_node::{Line, NodeCell};

// A node where application 3 holds a qubit under id 0.
fn holding(number: u8) -> NodeCell
    ensures { result ≡ with_handle empty_node (handle_of 3 0 number) }
{
    let mut cell = NodeCell::new();
    cell.add_handle(Handle {
        app: 3,
        id: 0,
        number,
    });
    cell
}

// What a received qubit comes with that was sent.
fn under(id: u16) -> Option<Taken> {
    Some(Taken { id, info: None })
}

#[test]
fn each_application_receives_its_own_in_order(rt: HostRuntime) {
    let mut to = NodeCell::new();
    let mut one = holding(7);
    send(&mut one, &mut to, 3, 0, 5);
    let mut two = holding(8);
    send(&mut two, &mut to, 3, 0, 5);
    let mut three = holding(9);
    send(&mut three, &mut to, 3, 0, 6);
    assert!(rt; one.held() == 0 && to.held() == 3);

    assert!(rt; receive(&mut to, 5, Line::Pair).is_none());
    assert!(rt; receive(&mut to, 6, Line::Pair).is_none());
    assert!(rt; receive(&mut to, 6, Line::Sent) == under(0));
    assert!(rt; receive(&mut to, 5, Line::Sent) == under(0));
    assert!(rt; receive(&mut to, 5, Line::Sent) == under(1));
    assert!(rt; receive(&mut to, 5, Line::Sent).is_none());
    assert!(rt; to.handles().find(6, 0) == Some(9));
    assert!(rt; to.handles().find(5, 0) == Some(7));
    assert!(rt; to.handles().find(5, 1) == Some(8));
    assert!(rt; to.held() == 3);
}

#[test]
fn halves_of_a_pair_go_to_both_nodes(rt: HostRuntime) {
    let info = PairInfo {
        node_a: 1,
        port_a: 8001,
        app_a: 3,
        node_b: 2,
        port_b: 8002,
        app_b: 5,
        pair: 0,
    };
    let mut from = NodeCell::new();
    let mut to = NodeCell::new();
    assert!(rt; pair(&mut from, &mut to, 3, 5, 1, 2, info) == 0);
    assert!(rt; from.handles().find(3, 0) == Some(1));
    assert!(rt; receive(&mut to, 5, Line::Sent).is_none());
    assert!(rt;
        receive(&mut to, 5, Line::Pair)
            == Some(Taken {
                id: 0,
                info: Some(info)
            })
    );
    assert!(rt; to.handles().find(5, 0) == Some(2));
}
