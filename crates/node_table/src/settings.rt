// Settings, and why a text says none.
ghost use Rattle.std.specs.Prelude.{◌≡◌, ◌≢◌, Err, IfOk};
ghost use Rattle.toml.specs.View.{table_view};
ghost use Rattle.node_table.specs.Document.{settings_in, settings_of, IsInRange};

use crate::key::{CONNECTIONS, JOURNAL, Key, LIMIT, PATIENCE, ROOM, TOP_KEYS, WAIT_MS, WORKERS};
use crate::nodes::{nodes_at, places_of};
use crate::place::all_apart;
use crate::value::{known_alone, number_at, seed_at};
use std::alloc::Global;
use toml::Table;
use virtual_node::Shape;

/// The settings of a network.
#[derive(Drop)]
pub struct Settings {
    /// Where the nodes are, the room of each in qubits, and the most qubits that may be entangled.
    pub shape: Shape,
    /// The key from which all random words come.
    pub seed: [u8; 32],
    /// The most entries of the journal.
    pub journal: u32,
    /// How many more times a RECV or EPR_RECV looks at an empty queue.
    pub patience: u32,
    /// How long it waits before each of those looks, in milliseconds.
    pub wait_ms: u32,
    /// The workers of each node.
    pub workers: u8,
    /// How many connections each worker serves, one after the other.
    pub connections: u8,
}

/// Why a text is refused. Of several causes the first in the order of checks is told: TOML, strange keys of the top table, each of its
/// keys in the order of `Key`, each node's strange keys, address and port, and doubled places. `node` is the node's number from 0, and 0
/// for a key of the top table.
#[derive(Clone, Copy, PartialEq, Eq, Debug, Drop)]
pub enum SettingsFault {
    /// Memory was short, which says nothing of the text.
    OutOfMemory,
    /// The text isn't UTF-8, or isn't TOML.
    NotToml,
    /// A table has a key that none may have: the top table (0), or that of a node (its number plus 1). Of its keys so many are less than
    /// the least such key, by bytes.
    Strange { table: u8, before: u32 },
    /// A key that must be there is absent.
    Missing { key: Key, node: u8 },
    /// The value is of another kind: no text, no whole number, or no list of tables.
    Kind { key: Key, node: u8 },
    /// The number is out of the key's range, or the list has no node, or more than 8.
    Range { key: Key, node: u8 },
    /// The seed isn't 64 hexadecimal digits, or the address isn't four numbers from 0 to 255 with points between them.
    Spelling { key: Key, node: u8 },
    /// The node `second` is the least whose place an earlier one has, of which `first` is the least.
    Doubled { first: u8, second: u8 },
}

// The settings that the document's top table says.
#[tactic(auto, unfolding(crate::specs::Document::settings_in))]
fn settings_in(top: &Table) -> Result<Settings, SettingsFault>
    ensures meaning { result ≡ settings_in (table_view top.now) }
    ensures ranges { IfOk result IsInRange }
{
    known_alone(&TOP_KEYS, 0, top)?;
    let seed = seed_at(top)?;
    let limit = number_at(&LIMIT, 0, top)?;
    let room = number_at(&ROOM, 0, top)?;
    let journal = number_at(&JOURNAL, 0, top)?;
    let patience = number_at(&PATIENCE, 0, top)?;
    let wait_ms = number_at(&WAIT_MS, 0, top)?;
    let workers = number_at(&WORKERS, 0, top)?;
    let connections = number_at(&CONNECTIONS, 0, top)?;
    let places = places_of(nodes_at(top)?)?;
    all_apart(places.as_slice())?;
    Ok(Settings {
        shape: Shape::new(places.as_slice(), room as u8, limit as u8),
        seed,
        journal,
        patience,
        wait_ms,
        workers: workers as u8,
        connections: connections as u8,
    })
}

/// The settings that a text says in TOML, or why it is refused.
pub fn read_settings(alloc: Global, text: &[u8]) -> Result<Settings, SettingsFault>
    // Unless memory was short, these are the text's settings or its first refusal.
    ensures meaning { result ≢ Err SettingsFault.OutOfMemory → result ≡ settings_of text.now }
    ensures ranges { IfOk result IsInRange }
{
    match toml::table_from_slice(alloc, text) {
        Ok(top) => settings_in(&top),
        Err(error) => {
            if error.is_memory() {
                Err(SettingsFault::OutOfMemory)
            } else {
                Err(SettingsFault::NotToml)
            }
        }
    }
}
