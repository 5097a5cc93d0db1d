// Settings, and the first refusals of texts that say none.
use crate::{Key, Settings, SettingsFault, plain_settings, read_settings};
use std::alloc::Global;
use std::test::Fail;
use virtual_node::Place;

const SEED: &str = "seed = \"0000000000000000000000000000000000000000000000000000000000000000\"\n";

const NUMBERS: &str = "limit = 12\nroom = 16\nworkers = 2\nconnections = 8\n";

const TWO_NODES: &str =
    "[[node]]\naddress = \"127.0.0.1\"\nport = 8821\n[[node]]\naddress = \"127.0.0.1\"\nport = 8822\n";

const FIRST_AGAIN: &str = "[[node]]\naddress = \"127.0.0.1\"\nport = 8821\n";

// What a text of these pieces says.
fn read(alloc: Global, pieces: &[&str]) -> Result<Result<Settings, SettingsFault>, Fail> {
    let mut text = Vec::new(alloc);
    for piece in pieces {
        text.extend_from_slice(piece.as_bytes())?;
    }
    Ok(read_settings(alloc, text.as_slice()))
}

// Why a text of these pieces is refused, if it is.
fn refusal(alloc: Global, pieces: &[&str]) -> Result<Option<SettingsFault>, Fail> {
    Ok(read(alloc, pieces)?.err())
}

// A place on this machine.
fn local(port: u16) -> Place {
    Place {
        address: 0x7f00_0001,
        port,
    }
}

#[test]
fn two_nodes_are_read(rt: HostRuntime) -> Result<(), Fail> {
    let Ok(settings) = read(rt.alloc(), &[SEED, NUMBERS, TWO_NODES])? else {
        return Err(Fail::from("refused"));
    };
    assert_eq!(rt; settings.shape.nodes(), 2);
    assert_eq!(rt; settings.shape.place(1), local(8822));
    assert_eq!(rt; settings.shape.limit(), 12);
    assert_eq!(rt; settings.shape.room(), 16);
    assert_eq!(rt; settings.seed, [0; 32]);
    assert_eq!(rt; settings.journal, 65_536);
    assert_eq!(rt; settings.patience, 100);
    assert_eq!(rt; settings.wait_ms, 10);
    assert_eq!(rt; settings.workers, 2);
    assert_eq!(rt; settings.connections, 8);
    Ok(())
}

#[test]
fn plain_nodes_have_ports_of_their_own(rt: HostRuntime) -> Result<(), Fail> {
    let settings = plain_settings(8);
    assert_eq!(rt; settings.shape.nodes(), 8);
    assert_eq!(rt; settings.shape.place(7), local(8828));
    assert_eq!(rt; settings.journal, 65_536);
    Ok(())
}

#[test]
fn keys_of_the_top_table_are_checked(rt: HostRuntime) -> Result<(), Fail> {
    use Key::{Limit, Node, Room, Seed};
    use SettingsFault::{Kind, Missing, NotToml, Range, Spelling, Strange};
    let node = 0;
    let cases: [(&[&str], SettingsFault); 9] = [
        (&[NUMBERS, TWO_NODES], Missing { key: Seed, node }),
        (
            &[SEED, "limit = 13\n", TWO_NODES],
            Range { key: Limit, node },
        ),
        (
            &[SEED, "room = \"16\"\n", TWO_NODES],
            Kind { key: Room, node },
        ),
        (
            &["seed = \"00\"\nlimit = 13\n"],
            Spelling { key: Seed, node },
        ),
        (
            &["colour = 1\n", NUMBERS, TWO_NODES],
            Strange {
                table: 0,
                before: 0,
            },
        ),
        (&[SEED, "node = []\n"], Range { key: Node, node }),
        (&["seed = "], NotToml),
        (&["journal = 9223372036854775808"], NotToml),
        (&["limit = 1\nlimit = 1"], NotToml),
    ];
    for (pieces, fault) in cases {
        assert_eq!(rt; refusal(rt.alloc(), pieces)?, Some(fault));
    }
    Ok(())
}

#[test]
fn nodes_are_checked_in_order(rt: HostRuntime) -> Result<(), Fail> {
    use Key::{Address, Port};
    use SettingsFault::{Doubled, Range, Spelling, Strange};
    let padded = "[[node]]\naddress = \"127.0.0.01\"\nport = 0\n";
    let coloured = "[[node]]\naddress = 1\ncolour = 1\n";
    let no_port = "[[node]]\naddress = \"127.0.0.1\"\nport = 0\n";
    let cases: [(&[&str], SettingsFault); 5] = [
        (
            &[SEED, FIRST_AGAIN, FIRST_AGAIN],
            Doubled {
                first: 0,
                second: 1,
            },
        ),
        (
            &[SEED, TWO_NODES, FIRST_AGAIN],
            Doubled {
                first: 0,
                second: 2,
            },
        ),
        (
            &[SEED, TWO_NODES, padded],
            Spelling {
                key: Address,
                node: 2,
            },
        ),
        (
            &[SEED, TWO_NODES, coloured],
            Strange {
                table: 3,
                before: 1,
            },
        ),
        (&[SEED, no_port, coloured], Range { key: Port, node: 0 }),
    ];
    for (pieces, fault) in cases {
        assert_eq!(rt; refusal(rt.alloc(), pieces)?, Some(fault));
    }
    Ok(())
}
