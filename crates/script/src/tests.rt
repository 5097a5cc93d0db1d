// Scripts, and the first refusals of texts that are none.
use crate::{ScriptRead, ScriptWhy, read_script};
use cqc_model::{Head, Instr, Remote};
use std::alloc::Global;
use std::test::Fail;

// The line and the cause of a refusal; 0 and none where the text is read.
fn refusal(alloc: Global, text: &str) -> Result<(u32, Option<ScriptWhy>), Fail> {
    if text.len() > 16_777_216 {
        return Err(Fail::from("too long"));
    }
    match read_script(alloc, text.as_bytes()) {
        ScriptRead::Read(_) => Ok((0, None)),
        ScriptRead::Refused(fault) => Ok((fault.line, Some(fault.why))),
        ScriptRead::OutOfMemory => Err(Fail::from("memory")),
    }
}

#[test]
fn messages_are_read(rt: HostRuntime) -> Result<(), Fail> {
    let text = "app 7\nnew\nx 0\nmeasure 0\ngo\nhello\nepr 3 2 127.0.0.1 8822\nfactory 3\n";
    let ScriptRead::Read(messages) = read_script(rt.alloc(), text.as_bytes()) else {
        return Err(Fail::from("refused"));
    };
    let remote = Remote {
        app: 2,
        port: 8822,
        node: 0x7f00_0001,
    };
    let commands: [&[(Instr, u16, bool)]; 3] = [
        &[
            (Instr::New, 0, false),
            (Instr::X, 0, false),
            (Instr::Measure, 0, true),
        ],
        &[],
        &[(Instr::Epr(remote), 3, false)],
    ];
    let heads = [
        Head::Commands { app: 7 },
        Head::Hello { app: 7 },
        Head::Factory {
            app: 7,
            repeats: 3,
            notify: true,
        },
    ];
    assert_eq!(rt; messages.len(), heads.len());
    for (message, (head, list)) in messages.iter().zip(heads.into_iter().zip(commands)) {
        assert_eq!(rt; message.head, head);
        assert_eq!(rt; message.list.len(), list.len());
        for (command, wanted) in message.list.iter().zip(list) {
            assert_eq!(rt; (command.instr, command.qubit, command.notify), *wanted);
        }
    }
    Ok(())
}

#[test]
fn first_refusal_is_told(rt: HostRuntime) -> Result<(), Fail> {
    let alloc = rt.alloc();
    let cases: [(ScriptWhy, &[(&str, u32)]); 5] = [
        (ScriptWhy::Word, &[("dance", 1)]),
        (ScriptWhy::Count, &[("new 1", 1), ("x", 1)]),
        (
            ScriptWhy::Number,
            &[
                ("x 65536", 1),
                ("rotx 0 256", 1),
                ("send 0 0 127.0.0 1", 1),
                ("send 0 0 127.0.0.1 0", 1),
                ("factory 256", 1),
            ],
        ),
        (
            ScriptWhy::Pending,
            &[("new\nhello", 2), ("new\n", 2), ("new\n\n# end", 4)],
        ),
        (ScriptWhy::Nothing, &[("go", 1)]),
    ];
    for (why, texts) in cases {
        for (text, line) in texts {
            assert_eq!(rt; refusal(alloc, text)?, (*line, Some(why)), "{text}");
        }
    }
    Ok(())
}

#[test]
fn long_body_is_refused(rt: HostRuntime) -> Result<(), Fail> {
    let alloc = rt.alloc();
    for (count, end, line) in [
        (16_384, "go\n", 0),
        (16_384, "factory 1\n", 16_385),
        (16_385, "go\n", 16_386),
    ] {
        let mut text = String::new(alloc);
        for _ in 0..count {
            text.push_str("new\n")?;
        }
        text.push_str(end)?;
        let why = if line == 0 {
            None
        } else {
            Some(ScriptWhy::Long)
        };
        assert_eq!(rt; refusal(alloc, text.as_str())?, (line, why));
    }
    Ok(())
}
