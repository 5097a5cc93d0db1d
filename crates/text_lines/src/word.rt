// The words of a line, and what words spell.
ghost use Rattle.std.specs.Prelude.{◌≡◌, ◌<◌, ◌↔◌, IsTrue, length, slice_index, ◌≤◌, IfSome, IfOk, map, option_map, Some, None, if◌then◌else◌};
ghost use Rattle.std.specs.Str.Parse.{digits_value};
ghost use Rattle.text_lines.specs.Words.{words, is_number, number_up_to, number_between, hex_bytes, address_of};

use hex::FromHexError;
use std::alloc::{AllocError, Global};
use std::net::Ipv4Addr;

/// The words of a line, which single spaces divide.
pub fn words(alloc: Global, line: &[u8]) -> Result<Vec<&[u8]>, AllocError>
    ensures { IfOk result (λ list. map (λ word. word.now) list.items ≡ words line.now) }
{
    line.split(|c| *c == b' ').collect(alloc)
}

// The number of some decimal digits.
fn digits(word: &[u8]) -> Option<u64>
    ensures { result ≡ (if is_number word.now then Some (digits_value 10 word.now) else None) }
{
    if word.is_empty() {
        return None;
    }
    let mut number: u64 = 0;
    for digit in word {
        if !digit.is_ascii_digit() {
            return None;
        }
        number = number
            .checked_mul(10)?
            .checked_add(u64::from(digit - b'0'))?;
    }
    Some(number)
}

// Whether a zero stands before other digits.
fn is_padded(word: &[u8]) -> bool
    ensures { IsTrue result ↔ ((1 < length word.now) × (slice_index word.now 0 ≡ 48)) }
{
    word.len() > 1 && word[0] == b'0'
}

/// The number up to `most` that a word spells, in decimal digits without leading zeros.
pub fn number(word: &[u8], most: u64) -> Option<u64>
    ensures value { result ≡ number_up_to most word.now }
    ensures within { IfSome result (λ n. n ≤ most) }
{
    if is_padded(word) {
        return None;
    }
    let number = digits(word)?;
    if number <= most { Some(number) } else { None }
}

/// The number from `least` to `most` that a word spells, in decimal digits without leading zeros.
pub fn number_between(word: &[u8], least: u64, most: u64) -> Option<u64>
    ensures value { result ≡ number_between least most word.now }
    ensures within { IfSome result (λ n. (least ≤ n) × (n ≤ most)) }
{
    let number = number(word, most)?;
    if least <= number { Some(number) } else { None }
}

/// The bytes that a word of hexadecimal digits spells: two digits of either case for each byte, and at least one byte.
pub fn hex_bytes(alloc: Global, word: &[u8]) -> Result<Option<Vec<u8>>, AllocError>
    ensures { IfOk result (λ bytes. option_map (λ list. list.items) bytes ≡ hex_bytes word.now) }
{
    if word.is_empty() {
        return Ok(None);
    }
    match hex::decode(alloc, word) {
        Ok(bytes) => Ok(Some(bytes)),
        Err(FromHexError::OutOfMemory) => Err(AllocError),
        Err(
            FromHexError::InvalidHexCharacter { .. }
            | FromHexError::OddLength
            | FromHexError::InvalidStringLength,
        ) => Ok(None),
    }
}

/// The IPv4 address that a word spells: four numbers up to 255 with points between them.
pub fn address(word: &[u8]) -> Option<u32>
    ensures { result ≡ address_of word.now }
{
    match Ipv4Addr::parse_ascii(word) {
        Ok(address) => Some(address.to_bits()),
        Err(_) => None,
    }
}
