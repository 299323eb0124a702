//! Makes the file of a segment: an empty one, or one with a given number and value, as a migration does.
ghost use Rattle.std.specs.Prelude.{◌≡◌, ◌≢◌, ◌-◌, ◌^◌, ◌<◌, ◌≤◌, false, [], length, OnOk, IfOk, IfErr, IsErrOf};
ghost use Rattle.std.specs.Prelude.{◌↔◌, IsTrue};
ghost use Rattle.snap_slot.specs.{declared.layout.TheConstants.FILE_LEN, Layout.IsUnformatted, Layout.IsFormatted};
ghost use Rattle.snap_slot.specs.{States.IsAtRest, States.IsPrepared, Layout.fresh_file};
ghost use Rattle.snap_disk.specs.Device.{Device, IsSettled, IsSynced, CountsFailure, CountsCalls};
ghost use Rattle.snap_history.specs.{declared.limits.TheConstants.MAX_COUNT, Limits.IsNumber, Limits.IsShort};
ghost use Rattle.snap_segment.specs.Refusals.{IsFormatRefusal};
ghost use Rattle.snap_segment.specs.Calls.{Counts, Leaves, LeavesAsBefore};
ghost use Rattle.snap_segment.specs.Creation.{IsFresh, IsMadeOrLeft, TellsGate, new_file};

use snap_disk::{DeviceFault, Disk, Refusal, write_synced};
use snap_slot::{
    BLOCK_LEN, FILE_LEN, HEADER_GATE_AT, HEADER_LEN, OPEN_GATE, SLOTS_LEN, encode_header,
    encode_slots, gate_at,
};

/// Makes the file of segment `index` of `count`, with `number` and `value`. Its other slots are
/// closed and hold zeros. Makes seven device calls.
///
/// Errors: `WrongFile` if the device doesn't have the length of a segment file, before any device
/// call; `AlreadyFormatted` if the header's gate is open, after a sync and a read and before any
/// write; `DeviceFailed` if a device call failed.
///
/// The header's gate is opened last, after a sync. So a crash at any time leaves the old content,
/// an unformatted file or the whole new one; and of a formatted file only the old content.
pub fn create<D: Disk>(
    device: &mut D,
    index: u8,
    count: u8,
    number: u64,
    value: &[u8],
) -> Result<(), Refusal>
    requires below { index < count }
    requires few { count ≤ MAX_COUNT }
    requires number { IsNumber number }
    requires fits { IsShort value.now }
    requires headroom { D.failure_count device.old < 2 ^ 64 - 1 }
    ensures counts { Counts D.Disk result 7 device.old device.new }
    ensures refusals { IfErr result IsFormatRefusal }
    ensures wrong_file { IsErrOf result Refusal.WrongFile ↔ (length (D.device device.old).bytes ≢ FILE_LEN) }
    ensures wrong_file_same { IsErrOf result Refusal.WrongFile → device.new ≡ device.old }
    ensures gate { TellsGate D.Disk result device.old device.new }

    // Of a formatted file, whatever the result, a crash leaves only what it could have left before.
    ensures kept { D.is_honest device.new → IsFormatted (D.device device.old).bytes
        → LeavesAsBefore D.Disk device.old device.new }

    // Of any file a crash leaves that, an unformatted file or the whole new one.
    ensures leaves { D.is_honest device.new → Leaves D.Disk device.old device.new
        (IsMadeOrLeft index count number value.now (D.device device.old)) }

    // After Ok a crash leaves the new file.
    ensures last { D.is_honest device.new
        → OnOk result (IsAtRest index count number value.now false (D.device device.new)) }

    // After Ok these are all bytes of the device.
    ensures bytes { D.is_honest device.new
        → OnOk result ((D.device device.new).bytes ≡ new_file index count number value.now) }
{
    if device.len() != FILE_LEN {
        return Err(Refusal::WrongFile);
    }
    match is_unformatted(device) {
        Err(_) => return Err(Refusal::DeviceFailed),
        Ok(false) => return Err(Refusal::AlreadyFormatted),
        Ok(true) => {}
    }
    match write_front(device, index, count, number, value) {
        Err(_) => return Err(Refusal::DeviceFailed),
        Ok(()) => {}
    }
    write_synced(device, HEADER_GATE_AT, &[OPEN_GATE]).map_err(|_| Refusal::DeviceFailed)
}

/// Formats the file of segment `index` of `count`: [`create`] with number 0 and the empty value, with its device calls
/// and errors, and what a crash leaves. No byte of the old content remains: the closed slots hold zeros.
#[tactic(auto, unfolding(snap_slot::specs::Layout::fresh_file))]
pub fn format<D: Disk>(device: &mut D, index: u8, count: u8) -> Result<(), Refusal>
    requires below { index < count }
    requires few { count ≤ MAX_COUNT }
    requires headroom { D.failure_count device.old < 2 ^ 64 - 1 }
    ensures counts { Counts D.Disk result 7 device.old device.new }
    ensures refusals { IfErr result IsFormatRefusal }
    ensures wrong_file { IsErrOf result Refusal.WrongFile ↔ (length (D.device device.old).bytes ≢ FILE_LEN) }
    ensures wrong_file_same { IsErrOf result Refusal.WrongFile → device.new ≡ device.old }
    ensures gate { TellsGate D.Disk result device.old device.new }
    ensures kept { D.is_honest device.new → IsFormatted (D.device device.old).bytes
        → LeavesAsBefore D.Disk device.old device.new }
    ensures leaves { D.is_honest device.new → Leaves D.Disk device.old device.new
        (IsFresh index count (D.device device.old)) }
    ensures last { D.is_honest device.new → OnOk result (IsAtRest index count 0 [] false (D.device device.new)) }
    ensures bytes { D.is_honest device.new → OnOk result ((D.device device.new).bytes ≡ fresh_file index count) }
{
    create(device, index, count, 0, &[])
}

/// Syncs, then reads the first block and returns whether the header's gate is closed.
fn is_unformatted<D: Disk>(device: &mut D) -> Result<bool, DeviceFault>
    requires size { length (D.device device.old).bytes ≡ FILE_LEN }
    requires headroom { D.failure_count device.old < 2 ^ 64 - 1 }
    ensures count { CountsFailure result (D.failure_count device.old) (D.failure_count device.new) }
    ensures size { length (D.device device.new).bytes ≡ length (D.device device.old).bytes }
    ensures calls { CountsCalls result 2 (D.clock device.old) (D.clock device.new) }
    ensures honest { D.is_honest device.new → D.is_honest device.old }
    ensures kept { D.is_honest device.new → LeavesAsBefore D.Disk device.old device.new }
    ensures settled { D.is_honest device.new → OnOk result (IsSynced (D.device device.old) (D.device device.new)) }
    ensures unformatted { D.is_honest device.new → IfOk result (λ unformatted. IsTrue unformatted
        ↔ IsUnformatted (D.device device.old).bytes) }
{
    device.sync()?;
    let mut block = [0u8; BLOCK_LEN];
    device.read_at(0, &mut block)?;
    Ok(block[HEADER_GATE_AT as usize] != OPEN_GATE)
}

/// Writes everything but the header's gate, then syncs.
fn write_front<D: Disk>(
    device: &mut D,
    index: u8,
    count: u8,
    number: u64,
    value: &[u8],
) -> Result<(), DeviceFault>
    requires below { index < count }
    requires few { count ≤ MAX_COUNT }
    requires number { IsNumber number }
    requires fits { IsShort value.now }
    requires size { length (D.device device.old).bytes ≡ FILE_LEN }
    requires headroom { D.failure_count device.old < 2 ^ 64 - 1 }
    ensures count { CountsFailure result (D.failure_count device.old) (D.failure_count device.new) }
    ensures size { length (D.device device.new).bytes ≡ length (D.device device.old).bytes }
    ensures calls { CountsCalls result 3 (D.clock device.old) (D.clock device.new) }
    ensures honest { D.is_honest device.new → D.is_honest device.old }
    ensures leaves { D.is_honest device.new → IsSettled (D.device device.old)
        → IsUnformatted (D.device device.old).bytes → Leaves D.Disk device.old device.new IsUnformatted }
    ensures prepared { D.is_honest device.new
        → OnOk result (IsPrepared index count number value.now (D.device device.new)) }
{
    let mut front = [0u8; HEADER_LEN];
    encode_header(index, count, &mut front);
    device.write_at(0, &front)?;
    let mut slots = [0u8; SLOTS_LEN];
    encode_slots(number, value, &mut slots);
    device.write_at(gate_at(0), &slots)?;
    device.sync()
}
