//! Converts values to text and back.
ghost use Rattle.std.specs.Prelude.{◌≡◌, ◌≤◌, ◌++◌, length, List, ℕ, IfOk, MatchOption, OnOk};
ghost use Rattle.hex.specs.Hex.{encode_lower};
ghost use Rattle.snap_order.specs.Hex.{IsHex, hex_text};

use hex::FromHexError;
use std::alloc::{AllocError, Global};

/// The value that a word encodes: pairs of hexadecimal digits of either case, or `-` for the empty
/// value. `None` for any other word, also the empty one.
pub fn read_hex(alloc: Global, word: &[u8]) -> Result<Option<Vec<u8>>, AllocError>
    ensures { IfOk result (λ found. MatchOption found ((bs : List ℕ) → IsHex word.now bs → ⊥)
        (λ v. IsHex word.now v.items)) }
{
    if word == b"-".as_slice() {
        return Ok(Some(Vec::new(alloc)));
    }
    if word.is_empty() {
        return Ok(None);
    }
    match hex::decode(alloc, word) {
        Ok(bytes) => Ok(Some(bytes)),
        Err(FromHexError::OutOfMemory) => Err(AllocError),
        Err(_) => Ok(None),
    }
}

/// How many bytes [`put_hex`] converts at a time.
const PIECE: usize = 64;

/// Appends a value's text, in lower case. If memory runs out, a beginning of it may have been appended.
pub fn put_hex(out: &mut Vec<u8>, bytes: &[u8]) -> Result<(), AllocError>
    ensures { OnOk result (out.new.items ≡ out.old.items ++ hex_text bytes.now) }
{
    if bytes.is_empty() {
        return out.extend_from_slice(b"-");
    }
    let mut rest = bytes;
    while !rest.is_empty() {
        let (piece, behind) = rest.split_at(rest.len().min(PIECE));
        put_piece(out, piece)?;
        rest = behind;
    }
    Ok(())
}

/// Appends the digits of at most 64 bytes.
fn put_piece(out: &mut Vec<u8>, piece: &[u8]) -> Result<(), AllocError>
    requires { length piece.now ≤ 64 }
    ensures { OnOk result (out.new.items ≡ out.old.items ++ encode_lower piece.now) }
{
    let mut digits = [0; 2 * PIECE];
    let digits = &mut digits[..2 * piece.len()];
    // The buffer has the length that is required, so this never fails.
    let _ = hex::encode_to_slice(piece, &mut *digits);
    out.extend_from_slice(digits)
}
