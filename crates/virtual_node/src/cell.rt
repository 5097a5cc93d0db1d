// The cell of one node.
ghost use Rattle.std.specs.Prelude.{◌≡◌, ◌+◌, ◌<◌, ◌≤◌, [], length, None, Some, IsSome, is_some, position, slice_get};
ghost use Rattle.network_model.specs.Network.{line_eq};
ghost use Rattle.network_model.specs.declared.Line.TheVariants.{Pair};
ghost use Rattle.qubit_handles.specs.Handle.{number_of, AreDistinct};
ghost use Rattle.virtual_node.specs.Node.{empty_node, load_of, is_waiting, look_of, with_handle, without_held, with_arrival, without_arrival};

use crate::{Arrival, Look};
use arrayvec::ArrayVec;
use network_model::Line;
use qubit_handles::{HANDLES, Handle, Handles};
use std::marker::Model;

/// What a node's applications hold, and what waits for them by arrival: at most 16 qubits together.
/// An arrival has pair information exactly where it is half of a pair.
#[derive(Drop)]
pub struct NodeCell {
    handles: Handles,
    arrivals: ArrayVec<Arrival, HANDLES>,
}

impl Model for NodeCell {
    ghost use Rattle.std.specs.Prelude.{◌+◌, ◌≤◌, length};
    ghost use Rattle.virtual_node.specs.Node.{Node, node_of, AreInformed};

    ghost Value = { Node };

    ghost view = { λ c. node_of c.handles c.arrivals.items };

    ghost invariant = { λ c. (length c.handles + length c.arrivals.items ≤ 16) × AreInformed c.arrivals.items };
}

impl NodeCell {
    /// Nothing is held, and nothing waits.
    pub fn new() -> NodeCell
        ensures { result ≡ empty_node }
    {
        NodeCell {
            handles: Handles::new(),
            arrivals: ArrayVec::new(),
        }
    }

    /// The same handles and arrivals.
    pub fn copy(&self) -> NodeCell
        ensures { result ≡ self.now }
    {
        let mut same = NodeCell::new();
        same.copy_from(self);
        same
    }

    /// Becomes the same as another node. Only what is there is copied.
    pub fn copy_from(&mut self, other: &NodeCell)
        ensures { self.new ≡ other.now }
    {
        self.handles = other.handles.copy();
        self.arrivals.clear();
        let Ok(()) = self
            .arrivals
            .try_extend_from_slice(other.arrivals.as_slice())
        else {
            unreachable!()
        };
    }

    /// How many qubits are held and wait, together.
    pub fn held(&self) -> u8
        ensures held { result ≡ load_of self.now }
        ensures most { result ≤ 16 }
    {
        self.handles.len() + self.arrivals.len() as u8
    }

    /// What every node keeps: no application holds two qubits under one id.
    pub fn facts(&self)
        ensures { AreDistinct self.now.handles }
    {
        self.handles.facts();
    }

    /// What is held.
    pub fn handles(&self) -> &Handles
        ensures { result.now ≡ self.now.handles }
    {
        &self.handles
    }

    /// The first arrival for the application on the line.
    pub fn look(&self, app: u16, line: Line) -> Look
        ensures { result ≡ look_of (position (is_waiting app line) self.now.arrivals) }
    {
        match first_for(&self.arrivals, app, line) {
            Some(place) => Look::Here { place: place as u8 },
            None => Look::Empty,
        }
    }

    /// Takes the arrival at a place. The others stay in order.
    pub fn take(&mut self, place: u8) -> Arrival
        requires place { place < length self.old.arrivals }
        ensures arrival { slice_get self.old.arrivals place ≡ Some result }
        ensures informed { is_some result.info ≡ line_eq result.line Pair }
        ensures others { self.new ≡ without_arrival self.old place }
        ensures room { load_of self.new < 16 }
    {
        self.arrivals.remove(place as usize)
    }

    /// Adds a handle behind the others. There is room for it, and its application holds nothing under its id.
    pub fn add_handle(&mut self, handle: Handle)
        requires room { load_of self.old < 16 }
        requires free { number_of self.old.handles handle.app handle.id ≡ None }
        ensures { self.new ≡ with_handle self.old handle }
    {
        self.handles.add(handle);
    }

    /// Drops the handle of an id that the application holds, and gives the qubit's number. The others stay in order.
    pub fn drop_handle(&mut self, app: u16, id: u16) -> u8
        requires held { IsSome (number_of self.old.handles app id) }
        ensures number { number_of self.old.handles app id ≡ Some result }
        ensures others { self.new ≡ without_held self.old app id }
    {
        self.handles.drop_one(app, id)
    }

    /// Adds an arrival behind the others. There is room for it, and half of a pair comes with its information.
    pub fn push_arrival(&mut self, arrival: Arrival)
        requires room { load_of self.old < 16 }
        requires informed { is_some arrival.info ≡ line_eq arrival.line Pair }
        ensures { self.new ≡ with_arrival self.old arrival }
    {
        self.arrivals.push(arrival);
    }
}

// Where the first arrival for the application on the line stands, if there is one.
fn first_for(arrivals: &[Arrival], app: u16, line: Line) -> Option<usize>
    ensures { result ≡ position (is_waiting app line) arrivals.now }
{
    arrivals.iter().position(|a| is_for(a, app, line))
}

// Whether an arrival waits for the application on the line.
#[tactic(auto, unfolding(network_model::specs::Network::line_eq))]
fn is_for(arrival: &Arrival, app: u16, line: Line) -> bool
    ensures { result ≡ is_waiting app line arrival.now }
{
    arrival.app == app && arrival.line == line
}
