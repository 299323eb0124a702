//! Converts a segment's file from the old format.
ghost use Rattle.std.specs.Prelude.{◌≡◌, ◌≢◌, ◌+◌, ◌-◌, ◌^◌, ◌<◌, ◌≤◌, ◌↔◌, ℕ, List, false, length, OnOk, IfOk, IfErr};
ghost use Rattle.std.specs.Prelude.{IsErrOf};
ghost use Rattle.snap_slot.specs.{declared.layout.TheConstants.FILE_LEN, Layout.IsUnformatted, Layout.IsFormatted};
ghost use Rattle.snap_slot.specs.{States.IsAtRest, declared.old_layout.TheConstants.OLD_FILE_LEN, Old.OldHead};
ghost use Rattle.snap_slot.specs.{Old.OldHolds, OldFound.IsOldFound, OldFound.IsNoOldOpening};
ghost use Rattle.snap_disk.specs.Device.{Device, IsSynced, MayLeave, CountsCalls};
ghost use Rattle.snap_disk.specs.Time.{LeavesOnly};
ghost use Rattle.snap_history.specs.declared.limits.TheConstants.{MAX_COUNT};
ghost use Rattle.snap_segment.specs.Migration.{CountsFault, IsRead, OfHeld};
ghost use Rattle.snap_segment.specs.{Refusals.IsMigrationRefusal, Calls.Counts, Calls.LeavesAsBefore};
ghost use Rattle.snap_segment.specs.{Creation.IsMadeOrLeft, Creation.new_file};

use crate::creation::create;
use crate::findings::read_all;
use snap_disk::{Disk, Refusal};
use snap_slot::{FILE_LEN, OLD_FILE_LEN, OldFound, recover_old};

/// The file of a migration that was refused.
#[derive(Clone, Copy, PartialEq, Eq)]
pub enum Which {
    /// The file of the old format.
    Old,
    /// The file to be made.
    New,
}

/// Makes the file of segment `index` of `count` on `new`, with the number and value that `old` holds in the old format.
/// Returns that number. Makes nine device calls: a sync and a read of `old`, which it never writes, then the seven of
/// [`format`](crate::format) on `new`. Allocates nothing.
///
/// Errors name the refused file, in this order: `WrongFile` if `old` doesn't have the length of an
/// old file, or else if `new` doesn't have that of a segment file, both before any device call; of
/// `old`, `DeviceFailed` if a device call failed, and `Unformatted`, `WrongFile` and `Damaged` as
/// for an opening; of `new`, `AlreadyFormatted` and `DeviceFailed` as for formatting.
///
/// An error of `old` leaves `new` untouched. A crash at any time leaves of `old` only what it could
/// have left before, and in `new` the old content, an unformatted file or the whole new one.
pub fn migrate<O: Disk, N: Disk>(
    old: &mut O,
    new: &mut N,
    index: u8,
    count: u8,
) -> Result<u64, (Which, Refusal)>
    requires below { index < count }
    requires few { count ≤ MAX_COUNT }
    requires headroom_old { O.failure_count old.old < 2 ^ 64 - 1 }
    requires headroom_new { N.failure_count new.old < 2 ^ 64 - 1 }

    // A failure count grows by one exactly if that device failed.
    ensures count_ok { IfOk result (λ _. (O.failure_count old.new ≡ O.failure_count old.old)
        × (N.failure_count new.new ≡ N.failure_count new.old)) }
    ensures count_err { IfErr result (λ e. CountsFault e.0 e.1 (O.failure_count old.old) (O.failure_count old.new)
        (N.failure_count new.old) (N.failure_count new.new)) }
    ensures size_old { length (O.device old.new).bytes ≡ length (O.device old.old).bytes }
    ensures size_new { length (N.device new.new).bytes ≡ length (N.device new.old).bytes }
    ensures calls_old { CountsCalls result 2 (O.clock old.old) (O.clock old.new) }
    ensures calls_new { CountsCalls result 7 (N.clock new.old) (N.clock new.new) }
    ensures taken_calls { IsErrOf result (Which.New, Refusal.AlreadyFormatted) → N.clock new.new ≡ N.clock new.old + 2 }
    ensures honest_old { O.is_honest old.new → O.is_honest old.old }
    ensures honest_new { N.is_honest new.new → N.is_honest new.old }

    // What the bytes are at each refusal. Lengths are checked before any call, and the old file is
    // checked before any call on the new one.
    ensures refusals { IfErr result (λ e. IsMigrationRefusal e.0 e.1) }
    ensures wrong_old_length { length (O.device old.old).bytes ≢ OLD_FILE_LEN
        → IsErrOf result (Which.Old, Refusal.WrongFile) × (old.new ≡ old.old) }
    ensures wrong_new_length { IsErrOf result (Which.New, Refusal.WrongFile)
        ↔ ((length (O.device old.old).bytes ≡ OLD_FILE_LEN) × (length (N.device new.old).bytes ≢ FILE_LEN)) }
    ensures wrong_new_same { IsErrOf result (Which.New, Refusal.WrongFile) → (old.new ≡ old.old) × (new.new ≡ new.old) }
    ensures new_untouched { IfErr result (λ e. e.0 ≡ Which.Old → new.new ≡ new.old) }
    ensures old_refused { IfErr result (λ e. O.is_honest old.new → e.0 ≡ Which.Old
        → IsNoOldOpening index count (O.device old.old).bytes e.1) }
    ensures old_read { O.is_honest old.new → IsRead result → OldHead (O.device old.old).bytes index count
        × ((k : ℕ) × (v : List ℕ) × OldHolds (O.device old.old).bytes k v) }
    ensures taken { N.is_honest new.new → IsErrOf result (Which.New, Refusal.AlreadyFormatted)
        → IsFormatted (N.device new.old).bytes × IsSynced (N.device new.old) (N.device new.new) }
    ensures unformatted { N.is_honest new.new → OnOk result (IsUnformatted (N.device new.old).bytes) }

    // The old file is never written: a crash during the call or after it leaves what it could have
    // left before. Unless a call on it failed its bytes are the same.
    ensures old_kept { O.is_honest old.new → LeavesOnly O.Disk old.old old.new (MayLeave (O.device old.old)) }
    ensures old_kept_now { O.is_honest old.new → (b : List ℕ)
        → MayLeave (O.device old.new) b → MayLeave (O.device old.old) b }
    ensures old_same { O.is_honest old.new → (IsErrOf result (Which.Old, Refusal.DeviceFailed) → ⊥)
        → (O.device old.new).bytes ≡ (O.device old.old).bytes }

    // Of a new file that was formatted already a crash leaves only what it could have left before.
    ensures kept { N.is_honest new.new → IsFormatted (N.device new.old).bytes
        → LeavesOnly N.Disk new.old new.new (MayLeave (N.device new.old)) }
    ensures kept_now { N.is_honest new.new → IsFormatted (N.device new.old).bytes
        → (b : List ℕ) → MayLeave (N.device new.new) b → MayLeave (N.device new.old) b }

    // A crash of the new file at any time during the call, and after it.
    ensures any_time { O.is_honest old.new → N.is_honest new.new
        → OfHeld (O.device old.old).bytes (λ k v. LeavesOnly N.Disk new.old new.new
        (IsMadeOrLeft index count k v (N.device new.old))) }
    ensures now { O.is_honest old.new → N.is_honest new.new
        → OfHeld (O.device old.old).bytes (λ k v. (b : List ℕ) → MayLeave (N.device new.new) b
        → IsMadeOrLeft index count k v (N.device new.old) b) }

    // After Ok a crash leaves in the new file what the old one holds.
    ensures last { O.is_honest old.new → N.is_honest new.new
        → OfHeld (O.device old.old).bytes (λ k v. IfOk result (λ number. (number ≡ k)
        × IsAtRest index count k v false (N.device new.new))) }

    // After Ok these are all bytes of the new file.
    ensures bytes { O.is_honest old.new → N.is_honest new.new → OfHeld (O.device old.old).bytes
        (λ k v. OnOk result ((N.device new.new).bytes ≡ new_file index count k v)) }
{
    if old.len() != OLD_FILE_LEN {
        return Err((Which::Old, Refusal::WrongFile));
    }
    if new.len() != FILE_LEN {
        return Err((Which::New, Refusal::WrongFile));
    }
    let mut file = [0u8; OLD_FILE_LEN as usize];
    let found = match read_old(old, &mut file, index, count) {
        Ok(found) => found,
        Err(why) => return Err((Which::Old, why)),
    };
    let value = found.value(&file);
    match create(new, index, count, found.number, value) {
        Ok(()) => Ok(found.number),
        Err(why) => Err((Which::New, why)),
    }
}

/// Syncs and reads the whole old file, and finds the value that it holds.
fn read_old<D: Disk>(
    device: &mut D,
    file: &mut [u8],
    index: u8,
    count: u8,
) -> Result<OldFound, Refusal>
    requires length { length (D.device device.old).bytes ≡ OLD_FILE_LEN }
    requires whole { length file.old ≡ OLD_FILE_LEN }
    requires headroom { D.failure_count device.old < 2 ^ 64 - 1 }
    ensures counts { Counts D.Disk result 2 device.old device.new }
    ensures kept { D.is_honest device.new → LeavesAsBefore D.Disk device.old device.new }
    ensures same { D.is_honest device.new → (IsErrOf result Refusal.DeviceFailed → ⊥)
        → (D.device device.new).bytes ≡ (D.device device.old).bytes }
    ensures given { D.is_honest device.new → OnOk result (file.new ≡ (D.device device.old).bytes) }
    ensures found { IfOk result (IsOldFound index count file.new) }
    ensures refusals { IfErr result (IsMigrationRefusal Which.Old) }
    ensures refused { D.is_honest device.new → IfErr result (IsNoOldOpening index count (D.device device.old).bytes) }
{
    match read_all(device, file) {
        Ok(()) => recover_old(file, index, count),
        Err(_) => Err(Refusal::DeviceFailed),
    }
}
