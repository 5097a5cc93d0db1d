// Words that are lines of the program, and words that aren't.
use crate::{Asked, Place, read_words};
use std::alloc::Global;
use std::test::Fail;

// The words of a line, which single spaces divide.
fn words_of(alloc: Global, line: &str) -> Result<Vec<String>, Fail> {
    let mut words = Vec::new(alloc);
    for word in line.split(' ') {
        words.push(String::from_str(alloc, word)?)?;
    }
    Ok(words)
}

#[test]
fn lines_are_read(rt: HostRuntime) -> Result<(), Fail> {
    let place = Place {
        address: 0x7f00_0001,
        port: 8821,
    };
    let cases = [
        ("pipe", Asked::Pipe),
        (
            "pipe two.toml",
            Asked::PipeWith {
                settings: "two.toml",
            },
        ),
        (
            "replay two.toml pair.schedule",
            Asked::Replay {
                settings: "two.toml",
                schedule: "pair.schedule",
            },
        ),
        (
            "serve two.toml",
            Asked::Serve {
                settings: "two.toml",
            },
        ),
        (
            "talk 127.0.0.1 8821 bell.script",
            Asked::Talk {
                place,
                script: "bell.script",
            },
        ),
        ("drill 3", Asked::Drill { rounds: 3 }),
        ("drill 100000", Asked::Drill { rounds: 100_000 }),
    ];
    for (line, asked) in cases {
        let words = words_of(rt.alloc(), line)?;
        assert_eq!(rt;
            read_words(rt.alloc(), words.as_slice())?,
            Some(asked),
            "{line}"
        );
    }
    Ok(())
}

#[test]
fn other_words_are_no_line(rt: HostRuntime) -> Result<(), Fail> {
    let alloc = rt.alloc();
    let none: Vec<String> = Vec::new(alloc);
    assert_eq!(rt; read_words(alloc, none.as_slice())?, None);
    for line in [
        "",
        "dance",
        "--help",
        "Pipe",
        "pipe -",
        "pipe --help",
        "pipe --",
        "pipe one two",
        "replay",
        "replay one",
        "replay one two three",
        "replay one -v",
        "serve",
        "serve one two",
        "serve --help",
        "talk 127.0.0.1 8821",
        "talk 127.0.0.01 8821 script",
        "talk localhost 8821 script",
        "talk 127.0.0.1 0 script",
        "talk 127.0.0.1 65536 script",
        "talk 127.0.0.1 +8821 script",
        "talk 127.0.0.1 8821 script more",
        "drill",
        "drill 0",
        "drill 100001",
        "drill +3",
        "drill 003",
        "drill -3",
        "drill 3 3",
        "drill x",
        "drill ",
    ] {
        let words = words_of(alloc, line)?;
        assert_eq!(rt; read_words(alloc, words.as_slice())?, None, "{line}");
    }
    Ok(())
}
