//! Worked handles.
ghost use Rattle.std.specs.Prelude.{◌≡◌};

use crate::{Handle, Handles};

// A qubit that an application holds under an id.
fn handle(app: u16, id: u16, number: u8) -> Handle
    ensures { result ≡ record { app = app; id = id; number = number } }
{
    Handle { app, id, number }
}

#[test]
fn an_application_gets_its_least_free_id(rt: HostRuntime) {
    let mut handles = Handles::new();
    assert!(rt; handles.least_held(3).is_none());
    handles.add(handle(3, 0, 7));
    handles.add(handle(3, 3, 8));
    handles.add(handle(3, 1, 9));
    assert!(rt; handles.least_id(3) == 2);
    assert!(rt; handles.least_held(3) == Some(0));
    assert!(rt; handles.least_id(4) == 0);
    assert!(rt; handles.least_held(4).is_none());
}

#[test]
fn a_dropped_handle_leaves_the_others(rt: HostRuntime) {
    let mut handles = Handles::new();
    handles.add(handle(3, 0, 7));
    handles.add(handle(5, 0, 8));
    let before = handles.copy();
    assert!(rt; handles.drop_one(3, 0) == 7);
    assert!(rt; handles.find(3, 0).is_none());
    assert!(rt; handles.find(5, 0) == Some(8));
    assert!(rt; handles.len() == 1);
    assert!(rt; before.find(3, 0) == Some(7));
    assert!(rt; before.len() == 2);
}
