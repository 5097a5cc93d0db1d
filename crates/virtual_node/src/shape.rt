// The settings of all nodes.
ghost use Rattle.std.specs.Prelude.{◌≡◌, ◌≢◌, ◌*◌, ◌<◌, ◌≤◌, length, Some, AllPairs, position, slice_get};
ghost use Rattle.virtual_node.specs.Settings.{settings, is_place};

use arrayvec::ArrayVec;
use network_model::Place;
use std::marker::Model;

/// The most nodes of a network.
pub const NODES: usize = 8;

/// The settings of a network: 1 to 8 distinct places of nodes, the room of each node from 1 to 16 qubits,
/// and the most qubits that may be entangled, from 1 to 12.
#[derive(Drop)]
pub struct Shape {
    places: ArrayVec<Place, NODES>,
    room: u8,
    limit: u8,
}

impl Model for Shape {
    ghost use Rattle.virtual_node.specs.Settings.{Settings, settings, AreSettings};

    ghost Value = { Settings };

    ghost view = { λ s. settings s.places.items s.room s.limit };

    ghost invariant = { λ s. AreSettings s.places.items s.room s.limit };
}

impl Shape {
    /// The network with these places, this room of each node, and this limit of entangled qubits.
    pub fn new(places: &[Place], room: u8, limit: u8) -> Shape
        requires some { 1 ≤ length places.now }
        requires most { length places.now ≤ 8 }
        requires distinct { AllPairs (λ one two. one ≢ two) places.now }
        requires some_room { 1 ≤ room }
        requires most_room { room ≤ 16 }
        requires some_limit { 1 ≤ limit }
        requires most_limit { limit ≤ 12 }
        ensures { result ≡ settings places.now room limit }
    {
        let mut list = ArrayVec::new();
        let Ok(()) = list.try_extend_from_slice(places) else {
            unreachable!()
        };
        Shape {
            places: list,
            room,
            limit,
        }
    }

    /// What every network keeps: room for 1 to 16 qubits at each node, so at most 128 numbers and as many slots, and
    /// a limit of 1 to 12.
    pub fn facts(&self)
        ensures slots { length self.now.places * self.now.room ≤ 128 }
        ensures room { self.now.room ≤ 16 }
        ensures limit { 1 ≤ self.now.limit }
    {
        let _ = self.nodes() * self.room();
        let _ = self.limit();
    }

    /// How many nodes there are, from 1 to 8, with distinct places.
    pub fn nodes(&self) -> u8
        ensures nodes { result ≡ length self.now.places }
        ensures some { 1 ≤ result }
        ensures most { result ≤ 8 }
        ensures distinct { AllPairs (λ one two. one ≢ two) self.now.places }
    {
        self.places.len() as u8
    }

    /// The most qubits of a node, from 1 to 16.
    pub fn room(&self) -> u8
        ensures room { result ≡ self.now.room }
        ensures some { 1 ≤ result }
        ensures most { result ≤ 16 }
    {
        self.room
    }

    /// The most qubits that may be entangled, from 1 to 12.
    pub fn limit(&self) -> u8
        ensures limit { result ≡ self.now.limit }
        ensures some { 1 ≤ result }
        ensures most { result ≤ 12 }
    {
        self.limit
    }

    /// Where a node listens.
    pub fn place(&self, node: u8) -> Place
        requires { node < length self.now.places }
        ensures { slice_get self.now.places node ≡ Some result }
    {
        self.places.as_slice()[node as usize]
    }

    /// The node that listens at an IPv4 address and port, if there is one.
    pub fn find(&self, address: u32, port: u16) -> Option<u8>
        ensures { result ≡ position (is_place address port) self.now.places }
    {
        let node = node_of(&self.places, address, port)?;
        Some(node as u8)
    }
}

// The first node at the address and port, if there is one.
fn node_of(places: &[Place], address: u32, port: u16) -> Option<usize>
    ensures { result ≡ position (is_place address port) places.now }
{
    places
        .iter()
        .position(|p| p.address == address && p.port == port)
}
