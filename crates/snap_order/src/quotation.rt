//! Values as quoted text.
ghost use Rattle.std.specs.Prelude.{◌≡◌, IfOk, IfSome, false, is_some, option_map};
ghost use Rattle.snap_order.specs.Quotation.{are_plain, is_plain, is_printable, is_white, quote_of, quoted};

use json::Writer;
use std::alloc::{AllocError, Global};

/// The first byte of the control characters that have two bytes, and of others.
const LEAD: u8 = 194;

/// The value between quotes, as in JSON, if it is printable: UTF-8 without control characters but tabs and line ends.
/// The result is one line, and has no effect on a terminal. `None` if the value isn't printable.
pub fn quote(alloc: Global, value: &[u8]) -> Result<Option<Vec<u8>>, AllocError>
    ensures { IfOk result (λ text. option_map (λ t. t.items) text ≡ quote_of value.now) }
{
    let Some(text) = printable(value) else {
        return Ok(None);
    };
    Ok(Some(quoted(alloc, text)?))
}

/// The value as text, if it is printable.
fn printable(value: &[u8]) -> Option<&str>
    ensures text { IfSome result (λ text. text.now ≡ value.now) }
    ensures is { is_some result ≡ is_printable value.now }
{
    if !are_plain(value) {
        return None;
    }
    match str::from_utf8(value) {
        Ok(text) => Some(text),
        Err(_) => None,
    }
}

/// The text between quotes.
fn quoted(alloc: Global, text: &str) -> Result<Vec<u8>, AllocError>
    ensures { IfOk result (λ q. q.items ≡ quoted text.now) }
{
    let mut writer = Writer::new(Vec::new(alloc));
    writer.string(text)?;
    Ok(writer.into_inner())
}

/// Whether no byte belongs to a control character, except for tabs and line ends.
fn are_plain(bytes: &[u8]) -> bool
    ensures { result ≡ are_plain false bytes.now }
{
    let mut is_behind = false;
    for &byte in bytes {
        if !is_plain(is_behind, byte) {
            return false;
        }
        is_behind = byte == LEAD;
    }
    true
}

/// Whether the byte belongs to no control character, or is a tab or line end. `is_behind`: the byte
/// before it is [`LEAD`].
fn is_plain(is_behind: bool, byte: u8) -> bool
    ensures { result ≡ is_plain is_behind byte }
{
    let is_control = byte < 32 || byte == 127 || (is_behind && 128 <= byte && byte < 160);
    is_white(byte) || !is_control
}

/// Whether the byte is a tab or line end.
fn is_white(byte: u8) -> bool
    ensures { result ≡ is_white byte }
{
    matches!(byte, b'\t' | b'\n' | b'\r')
}
