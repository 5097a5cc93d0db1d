// The settings where no text says any.
ghost use Rattle.std.specs.Prelude.{◌≡◌, ◌≤◌, map};
ghost use Rattle.std.specs.List.{range_with_len};
ghost use Rattle.node_table.specs.Document.{IsInRange};
ghost use Rattle.node_table.specs.Plain.{plain_place, plain_settings};

use crate::key::{CONNECTIONS, JOURNAL, LIMIT, PATIENCE, ROOM, WAIT_MS, WORKERS};
use crate::settings::Settings;
use arrayvec::ArrayVec;
use network_model::Place;
use virtual_node::{NODES, Shape};

/// The address of every plain node, 127.0.0.1.
const LOCALHOST: u32 = 0x7f00_0001;

/// The port of the first plain node.
const FIRST_PORT: u16 = 8821;

// The places of so many nodes.
fn plain_places(nodes: u8) -> ArrayVec<Place, NODES>
    requires { nodes ≤ 8 }
    ensures { result.items ≡ map plain_place (range_with_len 0 nodes) }
{
    let mut places = ArrayVec::new();
    for node in 0..nodes {
        places.push(Place {
            address: LOCALHOST,
            port: FIRST_PORT + u16::from(node),
        });
    }
    places
}

/// The settings of so many nodes where no text says any: node k is at 127.0.0.1 with port 8821 + k, the seed is zeros, and the rest is
/// what stands where a key is absent.
pub fn plain_settings(nodes: u8) -> Settings
    requires some { 1 ≤ nodes }
    requires most { nodes ≤ 8 }
    ensures settings { result ≡ plain_settings nodes }
    ensures ranges { IsInRange result }
{
    let places = plain_places(nodes);
    let room = ROOM.default_value() as u8;
    let limit = LIMIT.default_value() as u8;
    Settings {
        shape: Shape::new(places.as_slice(), room, limit),
        seed: [0; 32],
        journal: JOURNAL.default_value(),
        patience: PATIENCE.default_value(),
        wait_ms: WAIT_MS.default_value(),
        workers: WORKERS.default_value() as u8,
        connections: CONNECTIONS.default_value() as u8,
    }
}
