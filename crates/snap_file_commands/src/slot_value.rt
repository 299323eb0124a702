//! Prints the value in one slot, whatever the rest of its file holds.
ghost use Rattle.std.specs.Prelude.{◌≡◌, ◌≢◌, ◌-◌, ◌^◌, ◌<◌, ◌≤◌, length, IfOk, IfErr};
ghost use Rattle.snap_disk.specs.Device.{part};
ghost use Rattle.snap_slot.specs.Layout.{body_at, gate_block, value_field};
ghost use Rattle.snap_slot.specs.declared.layout.TheConstants.{BLOCK_LEN, FILE_LEN, OPEN_GATE, SLOT_COUNT};
ghost use Rattle.snap_history.specs.declared.limits.TheConstants.{MAX_VALUE_LEN};
ghost use Rattle.snap_file_commands.specs.Commands.{CountsEnd, EndsSlot, HasBadBody, HasBody};
ghost use Rattle.snap_file_commands.specs.Effects.{LeavesNoMore};

use crate::CommandFault;
use snap_disk::{Disk, Refusal};
use snap_order::{Status, write_whole};
use snap_slot::{
    BLOCK_LEN, FILE_LEN, OPEN_GATE, SLOT_COUNT, Slot, SlotFault, VALUE_AT, body_at, read_slot,
};
use std::alloc::Global;
use std::io::Write;

/// Prints the value in this slot of the file at this path. Neither the slot's gate is read, nor the header, nor
/// another slot: so it finds a value that the file as a whole doesn't answer.
pub(crate) fn print_slot<D: Disk, W: Write>(
    alloc: Global,
    file: &str,
    slot: u8,
    disk: &mut D,
    writer: &mut W,
) -> Result<Status, CommandFault>
    requires slot { slot < SLOT_COUNT }
    requires headroom { D.failure_count disk.old < 2 ^ 64 - 1 }
    ensures honest { D.is_honest disk.new → D.is_honest disk.old }
    ensures count { CountsEnd result (D.failure_count disk.old) (D.failure_count disk.new) }
    ensures ends { EndsSlot slot (D.is_honest disk.new) (D.device disk.old)
        (W.contents writer.old) (W.contents writer.new) result }
    ensures wrong_length { length (D.device disk.old).bytes ≢ FILE_LEN → disk.new ≡ disk.old }
    ensures any_time { LeavesNoMore D.Disk disk.old disk.new }
{
    if disk.len() != FILE_LEN {
        return Err(CommandFault::Refused(Refusal::WrongFile));
    }
    let mut body = [0u8; BLOCK_LEN];
    let read = disk.read_at(body_at(slot.into()), &mut body);
    read.map_err(|_| CommandFault::Refused(Refusal::DeviceFailed))?;
    match value_in(slot, &body) {
        Ok(value) => write_whole(writer, value).map_err(CommandFault::Output)?,
        Err(flaw) => {
            let file = String::from_str(alloc, file)?;
            return Err(CommandFault::NoValue { file, slot, flaw });
        }
    }
    Ok(Status::Done)
}

/// The value in the body block of this slot, or why there is none, by the reader of slots, with an open gate.
fn value_in(slot: u8, body: &[u8]) -> Result<&[u8], SlotFault>
    requires slot { slot < SLOT_COUNT }
    requires size { length body.now ≡ BLOCK_LEN }
    ensures value { IfOk result (λ value. HasBody slot value.now body.now) }
    ensures flaw { IfErr result (HasBadBody slot body.now) }
{
    match read_slot(SLOT_COUNT, slot, &open_gate(), body) {
        Slot::Open { length, .. } => Ok(value_of(body, length)),
        Slot::Bad(flaw) => Err(flaw),
        Slot::Closed => Err(SlotFault::Gate),
    }
}

#[tactic(auto, unfolding(snap_slot::specs::Layout::gate_block, snap_slot::specs::Layout::zeros))]
fn open_gate() -> [u8; BLOCK_LEN]
    ensures { result ≡ gate_block OPEN_GATE }
{
    let mut block = [0u8; BLOCK_LEN];
    block[0] = OPEN_GATE;
    block
}

#[tactic(auto, unfolding(snap_disk::specs::Device::part))]
fn value_of(body: &[u8], count: u16) -> &[u8]
    requires size { length body.now ≡ BLOCK_LEN }
    requires fits { count ≤ MAX_VALUE_LEN }
    ensures { result.now ≡ value_field count body.now }
{
    &body[VALUE_AT..VALUE_AT + usize::from(count)]
}
