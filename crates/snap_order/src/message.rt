//! The messages on standard error with which a command ends, and its exit status then.
ghost use Rattle.std.specs.Prelude.{◌≡◌, IfOk, Ok};
ghost use Rattle.snap_order.specs.declared.status.Status.TheVariants as status;

use crate::complaint::{IN_PLACE, complain, complain_of_refusal};
use crate::status::Status;
use snap_disk::Refusal;
use std::alloc::AllocError;
use std::fmt::{self, Display, Formatter, InlineText, Write};

/// A text as one line, which does nothing to a terminal: control characters and line ends, as the name of a file may
/// have them, are escaped as in the log, by `\n` or `\u{1b}`. All else is as it was.
#[derive(Clone, Copy)]
pub struct OneLine<'a>(pub &'a str);

impl Display for OneLine<'_> {
    fn fmt<W: fmt::Write>(&self, f: &mut Formatter<W>) -> fmt::Result {
        for c in self.0.chars() {
            match c {
                '\u{2028}' | '\u{2029}' => f.write(c.escape_default())?,
                _ if c.is_control() => f.write(c.escape_default())?,
                _ => f.write_char(c)?,
            }
        }
        Ok(())
    }
}

/// Prints this text on standard error, as [`OneLine`].
pub fn say<T: Display>(rt: &HostRuntime, text: &T) {
    let _ = match format!(in rt.alloc(); "{text}") {
        Ok(text) => complain(rt.alloc(), &mut rt.stderr(), &OneLine(text.as_str())),
        Err(_) => {
            let text = InlineText::<IN_PLACE>::of(text);
            complain(rt.alloc(), &mut rt.stderr(), &OneLine(text.as_str()))
        }
    };
}

/// Prints this of the file, folder or address with this name.
pub fn say_of<T: Display>(rt: &HostRuntime, name: &str, what: &T) {
    say(rt, &format_args!("{name}: {what}"));
}

/// Prints why the command failed.
pub fn fail<T: Display>(rt: &HostRuntime, why: &T) -> Status {
    say(rt, why);
    Status::Failed
}

/// Prints why the command is refused.
pub fn refuse<T: Display>(rt: &HostRuntime, why: &T) -> Status {
    say(rt, why);
    Status::Refused
}

/// Prints why the command failed at the file, folder or address with this name.
pub fn fail_of<T: Display>(rt: &HostRuntime, name: &str, why: &T) -> Status
    ensures { result ≡ status.Failed }
{
    say_of(rt, name, why);
    Status::Failed
}

/// Prints why the command is refused for the file or folder with this name.
pub fn refuse_of<T: Display>(rt: &HostRuntime, name: &str, why: &T) -> Status
    ensures { result ≡ status.Refused }
{
    say_of(rt, name, why);
    Status::Refused
}

/// The value, or the exit status after a message that memory ran out.
pub fn or_stop<T>(rt: &HostRuntime, made: Result<T, AllocError>) -> Result<T, Status>
    ensures { IfOk result (λ value. made ≡ Ok value) }
{
    made.map_err(|_| stop_without_memory(rt))
}

/// Prints that memory ran out.
pub fn stop_without_memory(rt: &HostRuntime) -> Status {
    let _ = complain_of_refusal(&mut rt.stderr(), Refusal::NoMemory);
    Status::Refused
}
