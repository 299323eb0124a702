//! The text of one line.
use log::Level;
use std::alloc::{AllocError, Global};
use std::fmt::Write;

/// The line `LEVEL target: text`, after its time or priority. Characters that would break the line,
/// or that are invisible, are escaped: a line feed as `\n`, others as `\u{1b}`. A backslash isn't.
pub(crate) fn line_of(
    alloc: Global,
    stamp: &str,
    level: Level,
    target: &str,
    text: &str,
) -> Result<String, AllocError> {
    let mut line = String::new(alloc);
    push_shown(&mut line, stamp)?;
    line.push_str(level.as_str())?;
    line.push(' ')?;
    push_shown(&mut line, target)?;
    line.push_str(": ")?;
    push_shown(&mut line, text)?;
    line.push('\n')?;
    Ok(line)
}

/// Appends a text with its hidden characters escaped. If memory runs out, a beginning of it may have been appended.
fn push_shown(line: &mut String, text: &str) -> Result<(), AllocError> {
    for c in text.chars() {
        push_char(line, c)?;
    }
    Ok(())
}

/// Appends a character. It is escaped if it is a control character, or one that ends a line in Unicode.
fn push_char(line: &mut String, c: char) -> Result<(), AllocError> {
    match c {
        '\n' => line.push_str("\\n"),
        '\r' => line.push_str("\\r"),
        '\t' => line.push_str("\\t"),
        '\u{2028}' | '\u{2029}' => write!(line, "\\u{{{:x}}}", u32::from(c)),
        _ if c.is_control() => write!(line, "\\u{{{:x}}}", u32::from(c)),
        _ => line.push(c),
    }
}
