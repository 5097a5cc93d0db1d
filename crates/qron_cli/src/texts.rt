// Texts of settings for tests.
use node_table::{Key, SettingsFault};

/// Settings of two nodes.
pub const TWO: &str = "seed = \"0000000000000000000000000000000000000000000000000000000000000000\"
limit = 12
room = 16
workers = 2
connections = 8

[[node]]
address = \"127.0.0.1\"
port = 8821

[[node]]
address = \"127.0.0.1\"
port = 8822
";

/// Settings of two nodes, with one worker each.
pub const ONE_EACH: &str =
    "seed = \"0000000000000000000000000000000000000000000000000000000000000000\"
workers = 1

[[node]]
address = \"127.0.0.1\"
port = 8821

[[node]]
address = \"127.0.0.1\"
port = 8822
";

// Without a seed.
const SEEDLESS: &str = "[[node]]
address = \"127.0.0.1\"
port = 8821
";

// A limit out of its range.
const UNLIMITED: &str = "seed = \"0000000000000000000000000000000000000000000000000000000000000000\"
limit = 13

[[node]]
address = \"127.0.0.1\"
port = 8821
";

// One place twice.
const DOUBLED: &str = "seed = \"0000000000000000000000000000000000000000000000000000000000000000\"

[[node]]
address = \"127.0.0.1\"
port = 8821

[[node]]
address = \"127.0.0.1\"
port = 8821
";

// A key that none may have, in front of the others.
const COLOURED: &str = "colour = 1
seed = \"0000000000000000000000000000000000000000000000000000000000000000\"

[[node]]
address = \"127.0.0.1\"
port = 8821
";

/// Texts that are no settings, and why they are refused.
pub fn refused_settings() -> [(&'static str, SettingsFault); 4] {
    let seedless = SettingsFault::Missing {
        key: Key::Seed,
        node: 0,
    };
    let unlimited = SettingsFault::Range {
        key: Key::Limit,
        node: 0,
    };
    let doubled = SettingsFault::Doubled {
        first: 0,
        second: 1,
    };
    let coloured = SettingsFault::Strange {
        table: 0,
        before: 0,
    };
    [
        (SEEDLESS, seedless),
        (UNLIMITED, unlimited),
        (DOUBLED, doubled),
        (COLOURED, coloured),
    ]
}
