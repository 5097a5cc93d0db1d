//! Worked calls: what they need.
use crate::needs::{NOTHING, Needs, call_needs};
use cqc_model::{Command, Instr, Remote};
use network_model::{Call, Place};
use qubit_handles::Handle;
use virtual_node::{NodeCell, Shape};

// The first of the two nodes, and the other one.
const OWN: Place = Place {
    address: 0x7f00_0001,
    port: 8821,
};

const OTHER: Place = Place {
    address: 0x7f00_0001,
    port: 8822,
};

// A call of application 3 at the first node.
fn call(qubit: u16, instr: Instr) -> Call {
    Call {
        seat: 0,
        serial: 0,
        node: 0,
        app: 3,
        command: Command {
            qubit,
            instr,
            notify: false,
            block: false,
        },
    }
}

// Application 3 at a place.
fn remote(place: Place) -> Remote {
    Remote {
        app: 3,
        port: place.port,
        node: place.address,
    }
}

// A node where application 3 holds number 7 under id 0, and number 9 under id 1.
fn two_held() -> NodeCell {
    let mut node = NodeCell::new();
    node.add_handle(Handle {
        app: 3,
        id: 0,
        number: 7,
    });
    node.add_handle(Handle {
        app: 3,
        id: 1,
        number: 9,
    });
    node
}

#[test]
fn a_gate_on_two_needs_both_numbers_and_the_pool(rt: HostRuntime) {
    let shape = Shape::new(&[OWN, OTHER], 2, 2);
    let node = two_held();
    let needs = call_needs(&shape, &call(1, Instr::Cphase(0)), &node);
    let both = Needs {
        first: Some(9),
        second: Some(7),
        pool: true,
        ..NOTHING
    };
    assert!(rt; needs == both);
    assert!(rt; call_needs(&shape, &call(4, Instr::X), &node) == NOTHING);
}

#[test]
fn a_transfer_needs_the_other_node(rt: HostRuntime) {
    let shape = Shape::new(&[OWN, OTHER], 2, 2);
    let node = two_held();
    let pair = call_needs(&shape, &call(0, Instr::Epr(remote(OTHER))), &node);
    let made = Needs {
        pool: true,
        slot: true,
        other: Some(1),
        ..NOTHING
    };
    assert!(rt; pair == made);
    let sent = call_needs(&shape, &call(0, Instr::Send(remote(OWN))), &node);
    let held = Needs {
        first: Some(7),
        ..NOTHING
    };
    assert!(rt; sent == held);
}

#[test]
fn a_qubit_that_stays_may_take_a_free_slot(rt: HostRuntime) {
    let shape = Shape::new(&[OWN, OTHER], 2, 2);
    let node = two_held();
    assert!(rt; call_needs(&shape, &call(0, Instr::Reset), &node).slot);
    assert!(rt; call_needs(&shape, &call(0, Instr::MeasureInplace), &node).slot);
    assert!(rt; !call_needs(&shape, &call(0, Instr::Measure), &node).slot);
}
