//! The board in a terminal.

use crate::print::LineText;
use crate::watch::exchange::Row;
use crate::watch::track::Track;
use snap_order::{put_hex, quote};
use std::alloc::{AllocError, Global};

/// How many lines are above the rows: the title and the names of the columns.
const HEAD: usize = 2;

/// The most bytes of a value's text that are drawn. No terminal is that wide.
const MOST: usize = 1_000;

/// Ends a line: erases the rest of it, and moves the cursor to the start of the next one, or leaves
/// it where it is on the last.
const END: &str = "\x1b[K\r\x1b[B";

/// The names of the columns.
const COLUMNS: &str = "segment      number   age    rate  state   value";

const BOLD: &str = "\x1b[1m";

const RED: &str = "\x1b[31m";

const PLAIN: &str = "\x1b[0m";

/// The contents of a board in a terminal.
#[derive(Clone, Copy)]
pub struct Panel<'a> {
    /// The server's address.
    pub address: &'a str,
    /// Why the server doesn't answer, so that the rows are outdated. `None` while it answers.
    pub loss: Option<&'a str>,
    /// The segments at the last poll that was answered.
    pub rows: &'a [Row],
    /// The age and rate of each segment, in the same order.
    pub tracks: &'a [Track],
    /// The time in milliseconds since the watch began.
    pub now: u64,
    /// Whether it is drawn in colours.
    pub is_coloured: bool,
}

impl Panel<'_> {
    /// The number of its lines.
    pub fn len(&self) -> usize {
        self.rows.len().saturating_add(HEAD)
    }
}

/// The text that draws the board in a terminal, over the `above` lines above the cursor. Afterwards
/// the cursor is at the start of the line below the board.
///
/// The terminal clips it: each line at its width, of which the last column stays empty, and the board at its height, of
/// which the last line is left to the cursor. So it fits any size without knowing it. Nothing scrolls, except to make
/// room for the first drawing. The text hides the cursor and turns line wrap off, and its end restores both, so it has
/// to be written whole. It has no control character of a value.
pub fn drawing(alloc: Global, above: usize, panel: &Panel<'_>) -> Result<String, AllocError> {
    let mut text = String::from_str(alloc, "\x1b[?25l\x1b[?7l\r")?;
    put_board(alloc, &mut text, above, panel)?;
    Ok(text)
}

/// Appends the board.
fn put_board(
    alloc: Global,
    text: &mut String,
    above: usize,
    panel: &Panel<'_>,
) -> Result<(), AllocError> {
    let len = panel.len();
    let up = above.max(len);
    for _ in above..len {
        text.push('\n')?;
    }
    write!(text, "\x1b[{up}A")?;
    put_title(text, panel)?;
    put_painted(text, panel.is_coloured, BOLD, COLUMNS)?;
    text.push_str(END)?;
    for (row, track) in panel.rows.iter().zip(panel.tracks) {
        put_row(alloc, text, panel, row, track)?;
    }
    text.push_str("\x1b[J\x1b[?7h\x1b[?25h")
}

/// Appends the title: the server's address, and whether it answers.
fn put_title(text: &mut String, panel: &Panel<'_>) -> Result<(), AllocError> {
    for letter in panel.address.chars() {
        if !letter.is_control() {
            text.push(letter)?;
        }
    }
    match panel.loss {
        Some(loss) => {
            text.push_str(": ")?;
            put_painted(text, panel.is_coloured, RED, loss)?;
            text.push_str(": trying again")?;
        }
        None => text.push_str(": connected")?,
    }
    text.push_str(END)
}

/// Appends a segment's line.
fn put_row(
    alloc: Global,
    text: &mut String,
    panel: &Panel<'_>,
    row: &Row,
    track: &Track,
) -> Result<(), AllocError> {
    let (segment, number) = (row.segment, row.number);
    let (age, rate) = (age_text(track.age(panel.now)), rate_text(track.rate()));
    let (age, rate) = (age.as_str(), rate.as_str());
    write!(text, "{segment:>7}  {number:>10}  {age:>4}  {rate:>6}  ")?;
    let state = if row.is_fenced { "fenced" } else { "ok    " };
    put_painted(text, panel.is_coloured & row.is_fenced, RED, state)?;
    let value = cell(alloc, row.value.as_slice())?;
    let value = str::from_utf8(value.as_slice()).unwrap_or("");
    let value = &value[..value.floor_char_boundary(MOST)];
    write!(text, "  {value}{END}")
}

/// A value as quoted text where it is printable, and else as hexadecimal digits.
fn cell(alloc: Global, value: &[u8]) -> Result<Vec<u8>, AllocError> {
    if let Some(text) = quote(alloc, value)? {
        return Ok(text);
    }
    let mut digits = Vec::new(alloc);
    put_hex(&mut digits, value)?;
    Ok(digits)
}

/// A number of seconds in the largest unit that it fills, or `-`.
fn age_text(age: Option<u64>) -> LineText {
    let Some(seconds) = age else {
        return LineText::of(&"-");
    };
    let (count, unit) = match seconds {
        ..60 => (seconds, 's'),
        ..3_600 => (seconds / 60, 'm'),
        ..86_400 => (seconds / 3_600, 'h'),
        _ => (seconds / 86_400, 'd'),
    };
    LineText::of(&format_args!("{count}{unit}"))
}

/// A number of tenths as a decimal number, or `-`.
fn rate_text(rate: Option<u64>) -> LineText {
    let Some(rate) = rate else {
        return LineText::of(&"-");
    };
    let (whole, tenths) = (rate / 10, rate % 10);
    LineText::of(&format_args!("{whole}.{tenths}"))
}

/// Appends these words, in this colour if the board has colours.
fn put_painted(
    text: &mut String,
    is_coloured: bool,
    colour: &str,
    words: &str,
) -> Result<(), AllocError> {
    if !is_coloured {
        return text.push_str(words);
    }
    text.push_str(colour)?;
    text.push_str(words)?;
    text.push_str(PLAIN)
}
