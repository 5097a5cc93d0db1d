// What the program answers to given bytes, words and faults.
use crate::mem_house::{Given, MOST, answer_with, done, ended, faultless, first_wrong, spelled};
use crate::status::Status;
use hex::decode;
use std::test::Fail;

#[test]
fn hello_and_commands_are_answered(rt: HostRuntime) -> Result<(), Fail> {
    let cases = [
        // nothing, and HELLO
        ("", [0, 0], ""),
        ("0200000700000000", [0, 0], "0200000700000000"),
        // NEW with NOTIFY, and with NOTIFY and BLOCK
        (
            "020100000000000400000101",
            [0, 0],
            "020a00000000000200000204000000000000",
        ),
        (
            "020100000000000400000105",
            [0, 0],
            "020a00000000000200000204000000000000",
        ),
        // a measured qubit in state 0: probability 0 of the outcome 1
        (
            "02010000000000080000010000000200",
            [MOST, 0],
            "020a0000000000020000020700000000000100",
        ),
        (
            "02010000000000080000010000000200",
            [0, 0],
            "020a0000000000020000020700000000000100",
        ),
        // the tie of one half
        (
            "020100000000000c000001000000110000000200",
            [9_223_372_036_854_775_807, 0],
            "020a0000000000020000020700000000000101",
        ),
        (
            "020100000000000c000001000000110000000200",
            [9_223_372_036_854_775_808, 0],
            "020a0000000000020000020700000000000100",
        ),
        // each measurement has the next word
        (
            "020100000000000c000001000000110000000200020100000000000c000001000000110000000200",
            [MOST, 0],
            "020a0000000000020000020700000000000100020a0000000000020000020700000000000101",
        ),
        // a second qubit has the next id
        (
            "020100000000000c000001010000010100001101",
            [0, 0],
            "020a0000000000020000020a00000000000200010204000000000000",
        ),
        // no qubit is held
        (
            "020100000000000400001100020100000000000400000200",
            [0, 0],
            "02190000000000000219000000000000",
        ),
        // no command
        ("0201000000000000", [0, 0], ""),
    ];
    assert_eq!(rt;
        first_wrong(&rt, rt.alloc(), &cases, &[1, 2, 7, 65_536])?,
        None
    );
    Ok(())
}

#[test]
fn every_instruction_on_one_qubit_is_answered(rt: HostRuntime) -> Result<(), Fail> {
    let cases = [
        // X and Y make the outcome 1 certain
        (
            "02010000000000180000010000000a00000002000000010000000c0000000200",
            [MOST, MOST],
            "020a0000000000020000020700000000000101020a0000000000020000020700000000000101",
        ),
        // Z between two H is X, and K twice does nothing
        (
            "0201000000000024000001000000110000000b00000011000000020000000100000012000000120000000200",
            [MOST, 0],
            "020a0000000000020000020700000000000101020a0000000000020000020700000000000100",
        ),
        // half turns about x and y are X and Y
        (
            "020100000000001a0000010000000e0080000002000000010000000f008000000200",
            [MOST, MOST],
            "020a0000000000020000020700000000000101020a0000000000020000020700000000000101",
        ),
        // after H, T and H the threshold is 2^62 (2 - sqrt 2): the last word that gives 1, and the next
        (
            "0201000000000014000001000000110000000d000000110000000200",
            [2_701_463_124_188_384_701, 0],
            "020a0000000000020000020700000000000101",
        ),
        (
            "0201000000000014000001000000110000000d000000110000000200",
            [2_701_463_124_188_384_702, 0],
            "020a0000000000020000020700000000000100",
        ),
        // a rotation by no eighth of a turn is refused without a DONE, and the qubit stays
        (
            "020100000000000d00000100000010001000001101020100000000000400000a01",
            [0, 0],
            "020a000000000002000002160000000000000204000000000000",
        ),
        // of a qubit that isn't held it is unknown
        ("020100000000000500090e0001", [0, 0], "0219000000000000"),
        // a measurement in place takes a word, and leaves the outcome
        (
            "02010000000000140000010000001100000003000000110000000200",
            [MOST, 0],
            "020a0000000000020000020700000000000100020700000000000101",
        ),
        // RESET leaves 0 and says nothing, I does nothing, and RELEASE lets the qubit go
        (
            "020100000000001c0000010000000a000000040000000000000003000000170000000100",
            [0, 0],
            "020a0000000000020000020700000000000100020a0000000000020000",
        ),
    ];
    assert_eq!(rt; first_wrong(&rt, rt.alloc(), &cases, &[7])?, None);
    Ok(())
}

#[test]
fn refused_messages_have_one_error(rt: HostRuntime) -> Result<(), Fail> {
    let cases = [
        // a command cut short by its body: nothing of it is executed
        ("0201000000000006000001000000", [0, 0], "0214000000000000"),
        (
            "0201000000000006000001000000020100000000000400000100",
            [0, 0],
            "0214000000000000020a0000000000020000",
        ),
        // other versions and types
        ("0100000000000000", [0, 0], "0216000000000000"),
        ("0208000000000000", [0, 0], "0216000000000000"),
        ("0203000000000000", [0, 0], "0216000000000000"),
        ("020b000000000000", [0, 0], "0216000000000000"),
        // an instruction that is no instruction, and the option ACTION
        (
            "02010000000000080000010000000900",
            [0, 0],
            "0216000000000000",
        ),
        ("020100000000000400000102", [0, 0], "0216000000000000"),
    ];
    assert_eq!(rt; first_wrong(&rt, rt.alloc(), &cases, &[1, 7])?, None);
    Ok(())
}

#[test]
fn cut_input_ends_with_a_status(rt: HostRuntime) -> Result<(), Fail> {
    let cases = [
        // within a header, within a body, and within the header behind a message
        ("020100", ""),
        ("020100000000000c0000010000", ""),
        ("020000070000000002", "0200000700000000"),
    ];
    for (input, output) in cases {
        let alloc = rt.alloc();
        let got = answer_with(&rt, alloc, decode(alloc, input)?, faultless([0, 0], 2))?;
        assert_eq!(rt; got, ended(alloc, Status::Unfinished, output)?, "{input}");
    }
    Ok(())
}

#[test]
fn faults_are_told(rt: HostRuntime) -> Result<(), Fail> {
    // the first read, the first write and the second
    let cases = [
        (Some(0), None, ""),
        (None, Some(0), ""),
        (None, Some(1), "020a0000000000020000"),
    ];
    for (bad_read, bad_write, output) in cases {
        let alloc = rt.alloc();
        let given = Given {
            bad_read,
            bad_write,
            ..faultless([0, 0], 7)
        };
        let got = answer_with(
            &rt,
            alloc,
            decode(alloc, "020100000000000400000101")?,
            given,
        )?;
        assert_eq!(rt; got, ended(alloc, Status::Fault, output)?);
    }
    Ok(())
}

#[test]
fn other_words_are_refused(rt: HostRuntime) -> Result<(), Fail> {
    let none: [&str; 0] = [];
    for args in [
        none.as_slice(),
        &["dance"],
        &["--help"],
        &["pipe", "x", "y"],
        &["replay", "x"],
        &["drill", "0"],
    ] {
        let alloc = rt.alloc();
        let given = Given {
            args,
            ..faultless([0, 0], 7)
        };
        let got = answer_with(&rt, alloc, decode(alloc, "0200000700000000")?, given)?;
        assert_eq!(rt; got, ended(alloc, Status::Words, "")?);
    }
    Ok(())
}

#[test]
fn long_body_is_passed_over(rt: HostRuntime) -> Result<(), Fail> {
    let alloc = rt.alloc();
    // a COMMAND of 65,537 bytes, and a HELLO behind it
    let input = spelled(
        alloc,
        &[
            ("0201000000010001", 1),
            ("00", 65_537),
            ("0200000700000000", 1),
        ],
    )?;
    assert_eq!(rt;
        answer_with(&rt, alloc, input, faultless([0, 0], 4096))?,
        done(alloc, &[("02140000000000000200000700000000", 1)])?
    );
    Ok(())
}
