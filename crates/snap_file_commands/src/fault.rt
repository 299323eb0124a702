//! Why a command ended early, and what standard error gets then. No clause has its texts.
ghost use Rattle.std.specs.Prelude.{◌≡◌};
ghost use Rattle.snap_file_commands.specs.Commands.{status_at, status_of};

use crate::remedy::line_behind;
use snap_disk::Refusal;
use snap_order::{
    Exit, FileOrder, OneLine, Status, SystemReason, complain, complain_of_refusal, complain_twice,
};
use snap_slot::SlotFault;
use std::alloc::{AllocError, Global};
use std::fmt::{self, Display, Formatter};
use std::io::{self, Write};

/// Why a command ended early.
#[derive(Drop)]
pub enum CommandFault {
    /// A refusal by number.
    Refused(Refusal),
    /// Standard input failed.
    Input(io::Error),
    /// Standard output failed.
    Output(io::Error),
    /// The value is stored, and only the line that says so failed.
    Unsaid {
        number: u64,
        error: io::Error,
    },
    /// The slot that was asked for holds no value.
    NoValue {
        file: String,
        slot: u8,
        flaw: SlotFault,
    },
}

/// What standard error gets after `snapd: `.
impl Display for CommandFault {
    fn fmt<W: fmt::Write>(&self, f: &mut Formatter<W>) -> fmt::Result {
        match self {
            CommandFault::Refused(why) => write!(f, "refused {why}"),
            CommandFault::Input(error) => write!(f, "standard input: {error}"),
            CommandFault::Output(error) => write!(f, "standard output: {error}"),
            CommandFault::Unsaid { number, error } => {
                write!(f, "stored {number}, but standard output: {error}")
            }
            CommandFault::NoValue { file, slot, flaw } => {
                let file = OneLine(file.as_str());
                write!(
                    f,
                    "{file}: slot {slot} holds no value, bad {flaw}: try another slot"
                )
            }
        }
    }
}

impl From<Refusal> for CommandFault {
    ghost use Rattle.snap_file_commands.specs.declared.fault.CommandFault.TheVariants.{Refused};

    ghost from_gives = { λ why failure. failure ≡ Refused why };

    fn from(why: Refusal) -> CommandFault {
        CommandFault::Refused(why)
    }
}

/// Memory ran out.
impl From<AllocError> for CommandFault {
    ghost use Rattle.snap_disk.specs.declared.refusal.Refusal.TheVariants.{NoMemory};
    ghost use Rattle.snap_file_commands.specs.declared.fault.CommandFault.TheVariants.{Refused};

    ghost from_gives = { λ _ failure. failure ≡ Refused NoMemory };

    fn from(_error: AllocError) -> CommandFault {
        CommandFault::Refused(Refusal::NoMemory)
    }
}

impl CommandFault {
    /// The program's status: 3 if a file or a slot was refused, 1 if a stream failed.
    pub fn status(&self) -> Status
        ensures { result ≡ status_of self.now }
    {
        match self {
            CommandFault::Refused(_) | CommandFault::NoValue { .. } => Status::Refused,
            _ => Status::Failed,
        }
    }

    /// Writes to standard error why the command ended, as one line that begins `snapd: `. A refusal's
    /// line takes no memory.
    pub fn report<E: Write>(&self, alloc: Global, errors: &mut E) -> Exit
        ensures { result.status ≡ status_of self.now }
    {
        let is_told = match self {
            CommandFault::Refused(why) => complain_of_refusal(errors, *why),
            _ => complain(alloc, errors, self),
        };
        let status = self.status();
        Exit { status, is_told }
    }

    /// Reports the failure of a command on the order's file, which has `len` bytes. After the line of a refusal of the
    /// file (10 to 14) one more line names the file and says what to do, and after 13 it has the system's reason.
    /// Without memory for it there is only the first line, and `is_told` is false.
    pub fn report_of<C: SystemReason, E: Write>(
        &self,
        alloc: Global,
        order: &FileOrder<'_>,
        len: u64,
        cause: &C,
        errors: &mut E,
    ) -> Exit
        ensures { result.status ≡ status_of self.now }
    {
        let CommandFault::Refused(why) = self else {
            return self.report(alloc, errors);
        };
        let more = line_behind(alloc, order, len, *why, cause);
        let is_told = complain_twice(errors, *why, more);
        let status = Status::Refused;
        Exit { status, is_told }
    }
}

/// How the program ends after a command on the order's file, which had `len` bytes. If the command ended
/// early, standard error gets the reason.
pub fn finish<C: SystemReason, E: Write>(
    alloc: Global,
    order: &FileOrder<'_>,
    len: u64,
    end: Result<Status, CommandFault>,
    cause: &C,
    errors: &mut E,
) -> Exit
    ensures { result.status ≡ status_at end }
{
    match end {
        Ok(status) => {
            let is_told = true;
            Exit { status, is_told }
        }
        Err(failure) => failure.report_of(alloc, order, len, cause, errors),
    }
}
