//! A migration that is stopped. Its calls are counted over both files: two of the old one, and then
//! those of the new one.
use crate::files::as_io;
use crate::sweeps::segment::restarted;
use crate::sweeps::stop::{Garbage, Stop};
use snap_devices::{FaultPlan, MemDisk};
use snap_disk::{DeviceFault, Disk, Refusal};
use snap_segment::{OLD_FILE_LEN, Which, migrate};
use snap_slot::FILE_LEN;
use std::alloc::Global;
use std::io;
use std::string::String;

/// The calls of a migration on the old file, which come first.
const OLD_CALLS: u64 = 2;

/// Where each part of an old file begins: number 0 with the empty value and number 1 with `hi`, both
/// open. They are the header, its gate, the gate of slot 0, and the gate and the body of slot 1.
const PARTS: [(u64, &[u8]); 5] = [
    (0, b"SNAPSEG1\x00\x01"),
    (4095, b"\xA5"),
    (4096, b"\xA5"),
    (12_288, b"\xA5"),
    (16_384, b"\0\0\0\0\0\0\0\x01\0\0\0\x02\0\0\0\0hi"),
];

/// The result of the stopped migration, and those after a crash of both files with this garbage: of opening the new
/// file, and of a second migration.
pub(crate) fn migration_cell(
    alloc: Global,
    stop: Stop,
    garbage: Garbage,
) -> io::Result<(String, String)> {
    let mut old = old_file(alloc)?;
    let made = old.calls();
    old.set_plan(stop.plan(alloc, made)?);
    let mut new = MemDisk::zeroed(alloc, FILE_LEN as usize)?;
    if let Some(stop) = stop.behind(OLD_CALLS) {
        new.set_plan(stop.plan(alloc, 0)?);
    }
    let words = migrate_words(alloc, &mut old, &mut new, 1)?;
    let (of_old, of_new) = (old.calls() - made, new.calls());
    let answer = format!(in alloc; "{words}, calls {of_old} and {of_new}")?;
    old.crash(&garbage.fill());
    old.set_plan(FaultPlan::new(alloc));
    let (found, mut new) = restarted(alloc, new, garbage)?;
    let again = migrate_words(alloc, &mut old, &mut new, 1)?;
    Ok((answer, format!(in alloc; "{found}, {again}")?))
}

/// The result of a migration to the first of `count` segments, in words.
pub(crate) fn migrate_words<D: Disk>(
    alloc: Global,
    old: &mut D,
    new: &mut MemDisk,
    count: u8,
) -> io::Result<String> {
    match migrate(old, new, 0, count) {
        Ok(number) => Ok(format!(in alloc; "migrated {number}")?),
        Err((which, why)) => {
            let file = match which {
                Which::Old => "old",
                Which::New => "new",
            };
            Ok(format!(in alloc; "{} of the {file} file", why.name())?)
        }
    }
}

/// The old file, and no place of the device open.
fn old_file(alloc: Global) -> io::Result<MemDisk> {
    let mut disk = MemDisk::zeroed(alloc, OLD_FILE_LEN as usize)?;
    if put_old_file(&mut disk).is_err() {
        return Err(as_io(Refusal::DeviceFailed));
    }
    Ok(disk)
}

fn put_old_file(disk: &mut MemDisk) -> Result<(), DeviceFault> {
    for (at, part) in PARTS {
        disk.write_at(at, part)?;
    }
    disk.sync()
}
