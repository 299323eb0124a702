//! The device of a segment, and the store that is made on it.
ghost use Rattle.std.specs.Prelude.{◌≡◌, ◌≢◌, ◌∷◌, ◌+◌, ◌<◌, ◌≤◌, ℕ, List, [], length, map, IfOk};
ghost use Rattle.snap_disk.specs.{Device.Device, Device.IsTouched, declared.fill.Fill.Fill};
ghost use Rattle.snap_slot.specs.{declared.layout.TheConstants.FILE_LEN, declared.layout.TheConstants.SLOT_COUNT};
ghost use Rattle.snap_slot.specs.{Layout.body_block, Layout.IsFileOf, Findings.IsFound};
ghost use Rattle.snap_history.specs.{declared.limits.TheConstants.MAX_COUNT, Pairs.Pairs};
ghost use Rattle.snap_history.specs.{declared.limits.TheConstants.MAX_VALUE_LEN, Limits.IsNumber, Limits.IsShort};
ghost use Rattle.snap_persist.specs.Device.{IsJustWritten, write_at, write_bytes, write_len};
ghost use Rattle.snap_persist.specs.Stage.{calls_left, after_call, first_call};
ghost use Rattle.snap_persist.specs.declared.persist.NextCall.{NextCall};
ghost use Rattle.snap_world.specs.Calls.{store_call};
ghost use Rattle.snap_world.specs.Devices.{IsMade, IsMissed, IsWriteFailed};
ghost use Rattle.snap_world.specs.inside.Drives.{device_of, IsFormatted, AllReady, IsCrashed, AreCrashed};
ghost use Rattle.snap_world.specs.inside.Recovery.{found_value, AllReadable, IsResumed};

use crate::event::Kind;
use snap_disk::{Fill, Image};
use snap_persist::{Answer, NextCall, Persist, Stage, Write};
use snap_slot::{BLOCK_LEN, FILE_LEN, Found, encode_body, encode_fresh_file, recover, slot_of};
use std::alloc::{AllocError, Global};

/// The device of one segment, with the persist of the current store, or of the next one.
#[derive(Drop)]
pub struct Drive {
    pub image: Image,
    pub persist: Persist,
    /// The slot that the last restart found on it.
    pub found: Found,
}

impl Drive {
    /// The device of segment `index` of `count`, formatted: number 0 and the empty value.
    pub fn format(alloc: Global, index: u8, count: u8) -> Result<Drive, AllocError>
        requires below { index < count }
        requires few { count ≤ MAX_COUNT }
        ensures { IfOk result (IsFormatted index count) }
    {
        let mut image = Image::new(alloc, FILE_LEN as usize)?;
        let mut file = [0u8; FILE_LEN as usize];
        encode_fresh_file(index, count, &mut file);
        image.put(0, &file);
        image.settle();
        Ok(Drive {
            image,
            persist: Persist::begin(false, slot_of(1)),
            found: Found {
                number: 0,
                length: 0,
                spare_open: false,
            },
        })
    }

    /// Makes the next call of the store of this number and value, which succeeds, and returns its kind.
    pub fn call(&mut self, number: u64, value: &[u8]) -> Kind
        requires size { length (device_of self.old).bytes ≡ FILE_LEN }
        requires slot { self.old.persist.slot < SLOT_COUNT }
        requires number { IsNumber number }
        requires fits { IsShort value.now }
        requires going { calls_left self.old.persist.stage ≢ [] }
        ensures slot { self.new.persist.slot ≡ self.old.persist.slot }
        ensures stage { self.new.persist.stage ≡ after_call self.old.persist.stage }
        ensures kind { calls_left self.old.persist.stage ≡ store_call result ∷ calls_left self.new.persist.stage }
        ensures made { IsMade self.old.persist.slot (body_block number value.now) (store_call result)
            (device_of self.old) (device_of self.new) }
    {
        let kind = match self.persist.next() {
            NextCall::Write(write) => {
                let mut block = [0u8; BLOCK_LEN];
                encode_body(number, value, &mut block);
                let place = write.place(self.persist.slot()) as usize;
                self.image.put(place, write.bytes(&block));
                Kind::Write(write)
            }
            NextCall::Sync => {
                self.image.settle();
                Kind::Sync
            }
            NextCall::Done => unreachable!(),
        };
        self.persist.told(Answer::Ok);
        kind
    }

    /// Makes the next call of the store, which fails: the touched places get the fill, and the store is over.
    pub fn fail(&mut self, fill: &Fill)
        requires size { length (device_of self.old).bytes ≡ FILE_LEN }
        requires slot { self.old.persist.slot < SLOT_COUNT }
        requires going { calls_left self.old.persist.stage ≢ [] }
        ensures stage { self.new.persist.stage ≡ Stage.Fenced }
        ensures missed { (call : NextCall) × (rest : List NextCall) × (calls_left self.old.persist.stage ≡ call ∷ rest)
            × IsMissed self.old.persist.slot fill.now call (device_of self.old) (device_of self.new) }
    {
        match self.persist.next() {
            NextCall::Write(write) => {
                let place = write.place(self.persist.slot()) as usize;
                self.image.put_failed(place, write.len(), fill);
            }
            NextCall::Sync => self.image.settle_failed(fill),
            NextCall::Done => unreachable!(),
        }
        self.persist.told(Answer::Fault);
    }

    /// Reads the file of segment `index` of `count`, and keeps what it found.
    pub fn read(&mut self, index: u8, count: u8)
        requires { ∥ ((k : ℕ) × (v : List ℕ) × IsFileOf index count k v (device_of self.old).bytes) ∥₁ }
        ensures image { self.new.image ≡ self.old.image }
        ensures persist { self.new.persist ≡ self.old.persist }
        ensures found { IsFound index count (device_of self.old).bytes self.new.found }
    {
        match recover(self.image.bytes(), index, count) {
            Ok(found) => self.found = found,
            // No restart of a world finds damage.
            Err(_) => unreachable!(),
        }
    }

    /// The value that the last restart found.
    pub fn found_value(&self) -> &[u8]
        requires size { length (device_of self.now).bytes ≡ FILE_LEN }
        requires limit { self.now.found.length ≤ MAX_VALUE_LEN }
        ensures value { result.now ≡ found_value self.now }
        ensures length { IsShort result.now }
    {
        self.found.value(self.image.bytes())
    }
}

/// The values that the last restart found.
pub fn found_values(alloc: Global, drives: &Vec<Drive>) -> Result<Vec<Vec<u8>>, AllocError>
    requires { ∥ AllReadable drives.now.items ∥₁ }
    ensures { IfOk result (λ m. map (λ v. v.items) m.items ≡ map found_value drives.now.items) }
{
    let mut all = Vec::new(alloc);
    for i in 0..drives.len() {
        all.push(drives[i].found_value().to_vec(alloc)?)?;
    }
    Ok(all)
}

/// Prepares each device for its next store: of the number after the one that the last restart found.
pub fn resume_all(drives: &mut Vec<Drive>)
    requires { ∥ AllReadable drives.old.items ∥₁ }
    ensures { Pairs (λ i. IsResumed) drives.old.items drives.new.items }
{
    for i in 0..drives.len() {
        let drive = &mut drives[i];
        let next = drive.found.number + 1;
        drive.persist = Persist::begin(drive.found.spare_open, slot_of(next));
    }
}

/// Crashes each device: its open places get its fill.
pub fn crash_all(drives: &mut Vec<Drive>, fills: &Vec<Fill>)
    requires { length fills.now.items ≡ length drives.old.items }
    ensures { AreCrashed fills.now.items drives.old.items drives.new.items }
{
    for i in 0..drives.len() {
        drives[i].image.crash(&fills[i]);
    }
}

/// The formatted devices of a new world.
pub fn new_drives(alloc: Global, segments: usize) -> Result<Vec<Drive>, AllocError>
    requires most { segments ≤ MAX_COUNT }
    ensures { IfOk result (λ v. (length v.items ≡ segments) × AllReady segments v.items) }
{
    let mut drives = Vec::new(alloc);
    for i in 0..segments {
        drives.push(Drive::format(alloc, i as u8, segments as u8)?)?;
    }
    Ok(drives)
}
