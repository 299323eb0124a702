//! Complaints: the line on standard error that says why a program stops.
ghost use Rattle.std.specs.Prelude.{◌≡◌, ◌++◌, List, ℕ, IfSome, IsNone, OnErr, OnOk, false, true, string_bytes};
ghost use Rattle.std.specs.Io.KnownBytes.{Appends};
ghost use Rattle.snap_order.specs.Streams.{AppendsBeginning, AppendsLess, SaysLines, refused_line, Complains};
ghost use Rattle.snap_order.specs.Streams.{complaint_line};

use crate::whole::write_whole;
use snap_disk::Refusal;
use std::alloc::Global;
use std::fmt::{Display, InlineText};
use std::io::{self, Write};

/// The size of the buffer for a text that there is no memory for, in bytes.
pub(crate) const IN_PLACE: usize = 4096;

/// Writes `snapd: `, the text and a line feed on standard error: in one call, if there is memory
/// and the writer takes it whole. Returns whether the whole line was written.
///
/// Without memory, a text of more than 4,096 bytes is cut and ends in dots; then it returns `false`.
pub fn complain<E: Write, T: Display>(alloc: Global, errors: &mut E, text: &T) -> bool
    ensures { Complains (T.output text.now) result (E.contents errors.old) (E.contents errors.new) }
{
    // The text is made first: after a `Display` whose text isn't known, the writer's contents wouldn't be known either.
    let Ok(text) = format!(in alloc; "{text}") else {
        let text = InlineText::<IN_PLACE>::of(text);
        let text = text.as_str();
        let is_cut = text.as_bytes().ends_with(b"...");
        return write_parts(errors, text).is_ok() && !is_cut;
    };
    match format!(in alloc; "snapd: {text}\n") {
        Ok(line) => write_whole(errors, line.as_bytes()).is_ok(),
        Err(_) => write_parts(errors, text.as_str()).is_ok(),
    }
}

/// Writes the line of a text without memory.
fn write_parts<E: Write>(errors: &mut E, text: &str) -> io::Result<()>
    ensures whole { OnOk result (Appends (E.contents errors.old) (E.contents errors.new) (complaint_line text.now)) }
    ensures cut { OnErr result (AppendsLess (E.contents errors.old) (E.contents errors.new) (complaint_line text.now)) }
{
    write_whole(errors, b"snapd: ")?;
    write_whole(errors, text.as_bytes())?;
    write_whole(errors, b"\n")
}

/// Writes the line of a refusal on standard error, such as `snapd: refused 10 Damaged`. Returns
/// whether the whole line was written. It takes no memory.
pub fn complain_of_refusal<E: Write>(errors: &mut E, why: Refusal) -> bool
    ensures whole { result ≡ true → Appends (E.contents errors.old) (E.contents errors.new) (refused_line why) }
    ensures beginning { AppendsBeginning (E.contents errors.old) (E.contents errors.new) (refused_line why) }
    ensures cut { result ≡ false → AppendsLess (E.contents errors.old) (E.contents errors.new) (refused_line why) }
{
    match write_whole(errors, line_of(why).as_bytes()) {
        Ok(()) => true,
        Err(_) => false,
    }
}

/// Writes the line of a refusal and then `more`, which is `None` if memory ran out for it. Returns
/// whether both were written whole.
pub fn complain_twice<E: Write>(errors: &mut E, why: Refusal, more: Option<String>) -> bool
    ensures says { (line : List ℕ) → IfSome more (λ m. string_bytes m ≡ line)
        → SaysLines (refused_line why ++ line) result (E.contents errors.old) (E.contents errors.new) }
    ensures none { IsNone more → result ≡ false }
{
    if !complain_of_refusal(errors, why) {
        return false;
    }
    match more {
        Some(line) => write_whole(errors, line.as_bytes()).is_ok(),
        None => false,
    }
}

/// The line of a refusal.
fn line_of(why: Refusal) -> &'static str
    ensures { result.now ≡ refused_line why }
{
    match why {
        Refusal::Malformed => "snapd: refused 1 Malformed\n",
        Refusal::NoSegment => "snapd: refused 2 NoSegment\n",
        Refusal::TooLong => "snapd: refused 3 TooLong\n",
        Refusal::Conflict => "snapd: refused 4 Conflict\n",
        Refusal::OutOfStep => "snapd: refused 5 OutOfStep\n",
        Refusal::Fenced => "snapd: refused 6 Fenced\n",
        Refusal::Full => "snapd: refused 7 Full\n",
        Refusal::NoMemory => "snapd: refused 8 NoMemory\n",
        Refusal::Exhausted => "snapd: refused 9 Exhausted\n",
        Refusal::Damaged => "snapd: refused 10 Damaged\n",
        Refusal::Unformatted => "snapd: refused 11 Unformatted\n",
        Refusal::AlreadyFormatted => "snapd: refused 12 AlreadyFormatted\n",
        Refusal::DeviceFailed => "snapd: refused 13 DeviceFailed\n",
        Refusal::WrongFile => "snapd: refused 14 WrongFile\n",
        Refusal::TooLarge => "snapd: refused 15 TooLarge\n",
        Refusal::NotNow => "snapd: refused 16 NotNow\n",
        Refusal::Worn => "snapd: refused 17 Worn\n",
    }
}
