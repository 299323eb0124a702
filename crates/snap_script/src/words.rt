//! The parts of a text, and the value of a word.
ghost use Rattle.std.specs.Prelude.{◌≡◌, ◌≢◌, ◌==◌, ◌+◌, ◌<◌, ◌∷◌, ◌↔◌, [], length, take, drop};
ghost use Rattle.std.specs.Prelude.{List, ℕ, IsTrue, MatchOption, IfOk};
ghost use Rattle.std.specs.List.{position_from};
ghost use Rattle.snap_order.specs.Hex.{IsHex};
ghost use Rattle.snap_script.specs.Words.{Finds, parts_at, IsNumber, IsFill, IsFillAt, IsMask};
ghost use Rattle.hex.specs.Hex.{decode_of};
ghost use Rattle.snap_disk.specs.declared.fill.Fill.{Fill};

use snap_disk::Fill;
use snap_order::read_hex;
use snap_world::SegmentSet;
use std::alloc::{AllocError, Global};

/// Whether `word` is this name.
fn is(word: &[u8], name: &str) -> bool
    ensures { IsTrue result ↔ (name.now ≡ word.now) }
{
    name.as_bytes() == word
}

/// The part of `text` before the first byte `at`, and what follows that byte, if there is one.
pub(crate) fn cut(text: &[u8], at: u8) -> (&[u8], Option<&[u8]>)
    ensures { MatchOption result.1 (parts_at at text.now ≡ result.0.now ∷ [])
        (λ rest. parts_at at text.now ≡ result.0.now ∷ parts_at at rest.now) }
{
    match place_of(text, at) {
        Some(i) => (&text[..i], Some(&text[i + 1..])),
        None => (text, None),
    }
}

/// The index of the first such byte.
fn place_of(text: &[u8], byte: u8) -> Option<usize>
    ensures { result ≡ position_from (λ b. b == byte) 0 text.now }
{
    text.iter().position(|b| *b == byte)
}

/// The whole text, if it has no byte `at`.
pub(crate) fn one_part(text: &[u8], at: u8) -> Option<&[u8]>
    ensures { MatchOption result ((a : List ℕ) → parts_at at text.now ≢ a ∷ [])
        (λ part. parts_at at text.now ≡ part.now ∷ []) }
{
    let (part, rest) = cut(text, at);
    match rest {
        None => Some(part),
        Some(_) => None,
    }
}

/// The parts before and after the only byte `at`.
pub(crate) fn two_parts(text: &[u8], at: u8) -> Option<(&[u8], &[u8])>
    ensures { MatchOption result ((a b : List ℕ) → parts_at at text.now ≢ a ∷ b ∷ [])
        (λ parts. parts_at at text.now ≡ parts.0.now ∷ parts.1.now ∷ []) }
{
    let (first, rest) = cut(text, at);
    let second = one_part(rest?, at)?;
    Some((first, second))
}

/// The number of 1 to 19 decimal digits.
pub(crate) fn number(word: &[u8]) -> Option<u64>
    ensures { Finds result (IsNumber word.now) }
{
    if word.is_empty() || word.len() > 19 {
        return None;
    }
    let mut value = 0;
    for byte in word {
        let digit = char::from(*byte).to_digit(10)?;
        value = value * 10 + u64::from(digit);
    }
    Some(value)
}

/// The fill of a word: `keep`, two hexadecimal digits, or `at:OFFSET:HEX`.
pub(crate) fn fill(alloc: Global, word: &[u8]) -> Result<Option<Fill>, AllocError>
    ensures { IfOk result (λ found. Finds found (IsFill word.now)) }
{
    if is(word, "keep") {
        return Ok(Some(Fill::Keep));
    }
    if let Some(byte) = one_byte(word) {
        return Ok(Some(Fill::All(byte)));
    }
    let (kind, rest) = cut(word, b':');
    let Some(rest) = rest else {
        return Ok(None);
    };
    if !is(kind, "at") {
        return Ok(None);
    }
    fill_at(alloc, rest)
}

/// The byte of two hexadecimal digits.
fn one_byte(word: &[u8]) -> Option<u8>
    ensures { Finds result (λ b. decode_of word.now ≡ Ok (b ∷ [])) }
{
    let mut byte = [0];
    match hex::decode_to_slice(word, &mut byte) {
        Ok(()) => Some(byte[0]),
        Err(_) => None,
    }
}

/// The fill of `OFFSET:HEX`.
fn fill_at(alloc: Global, text: &[u8]) -> Result<Option<Fill>, AllocError>
    ensures { IfOk result (λ found. MatchOption found ((o h bs : List ℕ) (p : ℕ) → parts_at 58 text.now ≡ o ∷ h ∷ []
        → IsNumber o p → IsHex h bs → ⊥) (λ f. (o h : List ℕ) × (parts_at 58 text.now ≡ o ∷ h ∷ []) × IsFillAt o h f)) }
{
    let Some((offset, digits)) = two_parts(text, b':') else {
        return Ok(None);
    };
    let Some(offset) = number(offset) else {
        return Ok(None);
    };
    match read_hex(alloc, digits)? {
        Some(bytes) => Ok(Some(Fill::At(offset, bytes))),
        None => Ok(None),
    }
}

/// The set of four hexadecimal digits.
pub(crate) fn mask(word: &[u8]) -> Option<SegmentSet>
    ensures { Finds result (IsMask word.now) }
{
    let mut bytes = [0; 2];
    match hex::decode_to_slice(word, &mut bytes) {
        Ok(()) => Some(SegmentSet {
            bits: u16::from_be_bytes(bytes),
        }),
        Err(_) => None,
    }
}
