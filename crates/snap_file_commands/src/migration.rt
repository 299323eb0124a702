//! Converts a file of the old format to a new file, over any two devices and any writer.
//!
//! `specs/Migration.antt` says what each end means for both devices.
ghost use Rattle.std.specs.Prelude.{◌≡◌, ◌≢◌, ◌<◌, ◌≤◌, ◌-◌, ◌^◌, length};
ghost use Rattle.snap_slot.specs.declared.layout.TheConstants.{FILE_LEN};
ghost use Rattle.snap_segment.specs.old_layout.TheConstants.{OLD_FILE_LEN};
ghost use Rattle.snap_order.specs.Order.{IsPlace};
ghost use Rattle.snap_file_commands.specs.Effects.{AnyCrashLeaves, LeavesNoMore};
ghost use Rattle.snap_file_commands.specs.Migration.{CountsMigration, EndsMigration, MigrationKeeps, MigrationLeaves};
ghost use Rattle.snap_file_commands.specs.Migration.{MigrationReads, migration_status_of};

use crate::CommandFault;
use crate::remedy::line_of_migration;
use itoa::Buffer;
use snap_disk::{Disk, Refusal};
use snap_order::{Exit, MigrateOptions, Status, SystemReason, complain_twice, write_whole};
use snap_segment::{Which, migrate};
use std::alloc::{AllocError, Global};
use std::io::Write;

/// Why a migration ended early.
#[derive(Drop)]
pub enum MigrationFault {
    /// One of its files was refused.
    OfFile { which: Which, why: Refusal },
    /// Another failure of a command.
    Other(CommandFault),
}

impl MigrationFault {
    /// Writes to standard error why the migration ended. After the line of a refused file a second line names the file
    /// and says what to do; of a device that failed it has the system's reason: `causes` has that of the old file's
    /// and of the new one's.
    pub fn report<C: SystemReason, E: Write>(
        &self,
        alloc: Global,
        order: &MigrateOptions<'_>,
        causes: (&C, &C),
        errors: &mut E,
    ) -> Exit
        ensures { result.status ≡ migration_status_of self.now }
    {
        match self {
            MigrationFault::OfFile { which, why } => {
                let cause = match which {
                    Which::Old => causes.0,
                    Which::New => causes.1,
                };
                let more = line_of_migration(alloc, order, *which, *why, cause);
                let is_told = complain_twice(errors, *why, more);
                let status = Status::Refused;
                Exit { status, is_told }
            }
            MigrationFault::Other(failure) => failure.report(alloc, errors),
        }
    }
}

/// Converts the old file to the new one, and returns how that ended. `migrated I of N number K` is printed once the new
/// file holds number K and its value for good.
///
/// Faults are found in this order: memory that runs out, then the refusals of the files (both lengths,
/// the old file's contents, whether the new one is formatted), and last a writer that fails.
pub fn act_pair<O: Disk, N: Disk, W: Write>(
    alloc: Global,
    order: &MigrateOptions<'_>,
    mut old: O,
    mut new: N,
    writer: &mut W,
) -> (O, N, Result<Status, MigrationFault>)
    requires place { IsPlace order.now.index order.now.count }
    requires old_headroom { O.failure_count old < 2 ^ 64 - 1 }
    requires new_headroom { N.failure_count new < 2 ^ 64 - 1 }
    ensures old_honest { O.is_honest result.0 → O.is_honest old }
    ensures new_honest { N.is_honest result.1 → N.is_honest new }

    // One of the devices failed, once, if the end says so, and otherwise neither did.
    ensures count { CountsMigration result.2 (O.failure_count old) (O.failure_count result.0)
        (N.failure_count new) (N.failure_count result.1) }

    // The end says what the files held and hold.
    ensures ends { EndsMigration order.now.index order.now.count (O.is_honest result.0)
        (N.is_honest result.1) (O.device old) (N.device new) (N.device result.1) result.2 }

    // The old file's bytes are the same, unless its device failed. A refusal leaves what was there.
    ensures reads { MigrationReads result.2 (O.is_honest result.0 → (O.device result.0).bytes ≡ (O.device old).bytes) }
    ensures keeps { MigrationKeeps result.2 (result.0 ≡ old) (result.1 ≡ new) (LeavesNoMore N.Disk new result.1) }

    // If a length is wrong, both devices are left untouched.
    ensures wrong_old_length { length (O.device old).bytes ≢ OLD_FILE_LEN → (result.0 ≡ old) × (result.1 ≡ new) }
    ensures wrong_new_length { length (N.device new).bytes ≢ FILE_LEN → (result.0 ≡ old) × (result.1 ≡ new) }

    // A crash at any time leaves of the old file what one before could leave, and of the new one
    // what a migration may leave.
    ensures old_any_time { LeavesNoMore O.Disk old result.0 }
    ensures new_any_time { O.is_honest result.0 → AnyCrashLeaves N.Disk new result.1
        (MigrationLeaves order.now.index order.now.count (O.device old) (N.device new)) }
{
    let (index, count) = (order.index, order.count);
    // The line's memory is taken first, so that the files stay as they are if it runs out.
    let Ok(mut line) = line_for(alloc, index, count) else {
        let failure = CommandFault::Refused(Refusal::NoMemory);
        return (old, new, Err(MigrationFault::Other(failure)));
    };
    let number = match migrate(&mut old, &mut new, index, count) {
        Ok(number) => number,
        Err((which, why)) => return (old, new, Err(MigrationFault::OfFile { which, why })),
    };
    end_line(&mut line, number);
    match write_whole(writer, line.as_bytes()) {
        Ok(()) => (old, new, Ok(Status::Done)),
        Err(error) => {
            let failure = CommandFault::Output(error);
            (old, new, Err(MigrationFault::Other(failure)))
        }
    }
}

/// How many bytes the longest number has, with the line feed after it.
const NUMBER_ROOM: usize = 21;

/// The line but for its number, with room for that.
fn line_for(alloc: Global, index: u8, count: u8) -> Result<String, AllocError> {
    let mut line = format!(in alloc; "migrated {index} of {count} number ")?;
    line.reserve(NUMBER_ROOM)?;
    Ok(line)
}

/// Puts the number and a line feed after a line that has room for them, so no memory is asked for.
fn end_line(line: &mut String, number: u64) {
    let mut digits = Buffer::new();
    let _ = line.push_str(digits.format(number));
    let _ = line.push('\n');
}
