// The keys of settings.
ghost use Rattle.std.specs.Prelude.{◌≡◌};
ghost use Rattle.node_table.specs.Keys.{name_of, default_of};

/// A key of settings: those of the top table, in the order in which they are checked, then those of a node.
#[derive(Clone, Copy, PartialEq, Eq, Debug, Drop)]
pub enum Key {
    Seed,
    Limit,
    Room,
    Journal,
    Patience,
    WaitMs,
    Workers,
    Connections,
    Node,
    Address,
    Port,
}

impl Key {
    /// How the key is written.
    pub fn name(self) -> &'static str
        ensures { result.now ≡ name_of self }
    {
        match self {
            Key::Seed => "seed",
            Key::Limit => "limit",
            Key::Room => "room",
            Key::Journal => "journal",
            Key::Patience => "patience",
            Key::WaitMs => "wait_ms",
            Key::Workers => "workers",
            Key::Connections => "connections",
            Key::Node => "node",
            Key::Address => "address",
            Key::Port => "port",
        }
    }
}

/// A key whose value is a whole number: the least and the greatest, and the one where the key is absent, if it may be.
#[derive(Clone, Copy, PartialEq, Eq, Debug, Drop)]
pub(crate) struct Whole {
    pub(crate) key: Key,
    pub(crate) least: u32,
    pub(crate) most: u32,
    pub(crate) default: Option<u32>,
}

impl Whole {
    /// The number where the key is absent, if it may be.
    pub(crate) fn default_value(&self) -> u32
        ensures { result ≡ default_of self.now }
    {
        self.default.unwrap_or(0)
    }
}

// A key with its least and its greatest number, and the one where it is absent, if it may be.
macro_rules! whole {
    ($key:ident, $least:literal, $most:literal, $default:expr) => {
        Whole {
            key: Key::$key,
            least: $least,
            most: $most,
            default: $default,
        }
    };
}

pub(crate) const LIMIT: Whole = whole!(Limit, 1, 12, Some(12));

pub(crate) const ROOM: Whole = whole!(Room, 1, 16, Some(16));

pub(crate) const JOURNAL: Whole = whole!(Journal, 1, 1_048_576, Some(65_536));

pub(crate) const PATIENCE: Whole = whole!(Patience, 0, 1_000_000, Some(100));

pub(crate) const WAIT_MS: Whole = whole!(WaitMs, 0, 1_000, Some(10));

pub(crate) const WORKERS: Whole = whole!(Workers, 1, 8, Some(1));

pub(crate) const CONNECTIONS: Whole = whole!(Connections, 1, 64, Some(64));

pub(crate) const PORT: Whole = whole!(Port, 1, 65_535, None);

/// The keys of the top table.
pub(crate) const TOP_KEYS: [Key; 9] = [
    Key::Seed,
    Key::Limit,
    Key::Room,
    Key::Journal,
    Key::Patience,
    Key::WaitMs,
    Key::Workers,
    Key::Connections,
    Key::Node,
];

/// The keys of a node's table.
pub(crate) const NODE_KEYS: [Key; 2] = [Key::Address, Key::Port];
