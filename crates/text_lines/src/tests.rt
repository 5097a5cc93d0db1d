// Lines, and what words spell.
use crate::{Lines, address, content, hex_bytes, is_passed_over, number, number_between, words};
use std::test::Fail;

#[test]
fn lines_hold_their_ends(rt: HostRuntime) -> Result<(), Fail> {
    let mut lines = Lines::of(b"new\n\n# x\r\nlast");
    for line in [b"new\n".as_slice(), b"\n", b"# x\r\n", b"last"] {
        assert_eq!(rt; lines.next(), Some(line));
    }
    assert_eq!(rt; lines.next(), None);
    assert_eq!(rt; content(b"# x\r\n"), b"# x\r".as_slice());
    assert!(rt; is_passed_over(content(b"\n")));
    assert!(rt; is_passed_over(b"# x"));
    assert!(rt; !is_passed_over(b" # x"));
    Ok(())
}

#[test]
fn words_stand_between_single_spaces(rt: HostRuntime) -> Result<(), Fail> {
    let words = words(rt.alloc(), b"c  0\t1 ")?;
    let want = [b"c".as_slice(), b"", b"0\t1", b""];
    assert_eq!(rt; words.as_slice(), want.as_slice());
    Ok(())
}

#[test]
fn numbers_have_one_spelling(rt: HostRuntime) -> Result<(), Fail> {
    assert_eq!(rt; number(b"0", 9), Some(0));
    assert_eq!(rt; number(b"18446744073709551615", u64::MAX), Some(u64::MAX));
    assert_eq!(rt; number_between(b"1", 1, 9), Some(1));
    assert_eq!(rt; number_between(b"0", 1, 9), None);
    for word in [b"".as_slice(), b"+3", b"-0", b"003", b"10", b"1_0", b"3 "] {
        assert_eq!(rt; number(word, 9), None);
    }
    assert_eq!(rt; number(b"18446744073709551616", u64::MAX), None);
    Ok(())
}

#[test]
fn addresses_are_four_numbers(rt: HostRuntime) -> Result<(), Fail> {
    assert_eq!(rt; address(b"127.0.0.1"), Some(0x7f00_0001));
    for word in [
        b"".as_slice(),
        b"127.0.0",
        b"127.0.0.1.1",
        b"127.0.0.01",
        b"127.0.0.256",
        b"127.0.0.",
        b"localhost",
        b"::1",
    ] {
        assert_eq!(rt; address(word), None);
    }
    Ok(())
}

#[test]
fn hexadecimal_has_both_cases(rt: HostRuntime) -> Result<(), Fail> {
    let bytes = hex_bytes(rt.alloc(), b"00fFAb")?;
    let Some(bytes) = bytes else {
        return Err(Fail::from("refused"));
    };
    assert_eq!(rt; bytes.as_slice(), [0, 255, 171].as_slice());
    for word in [b"".as_slice(), b"0", b"000", b"0g", b"0x00"] {
        assert!(rt; hex_bytes(rt.alloc(), word)?.is_none());
    }
    Ok(())
}
