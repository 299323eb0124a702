//! What a device remembers of its file, by what it has read and written, and whether the file still has it.
//!
//! A lock excludes only programs that lock the file too, so any other program may copy onto a file in use, or truncate
//! it. The file keeps its name then, and the next store would make a mixture of both. So before the first byte of a
//! store the file is compared with what is remembered: its length, its header, the number and length of the slot that
//! was stored last, and the gates of that slot and the next one. A copy of another segment has another header. A copy
//! from another time has another number in that slot, or has opened the next one. Before the first store all slots are
//! compared. A file with the same bytes there takes the store as the old one does.
//!
//! Each call and each byte counts here. A seek gives the length, since asking for the file's times would cost the next
//! write (`opened_path.rt`). Three reads give the rest. Only the bytes that are compared are kept, so a device is small
//! where it is moved.

use crate::CallFault;
use snap_slot::{
    BLOCK_LEN, BODIES_AT, FILE_LEN, GATES_AT, HEADER_GATE_AT, OPEN_GATE, SLOT_COUNT, VALUE_AT,
};
use std::fs::File;
use std::io::{self, ErrorKind, Seek, SeekFrom};
use std::os::unix::fs::FileExt;

/// How many bytes of the header are compared, beside its gate. All others are zeros.
const START_LEN: usize = 16;

/// How many bytes a slot's gate block and the beginning of its body have, which are read at once.
const SLOT_READ: usize = BLOCK_LEN + VALUE_AT;

/// How many syncs a store makes.
const STORE_SYNCS: u8 = 2;

/// A slot's gate, and the beginning of its body: its number and length.
#[derive(Clone, Copy, Default)]
struct SlotHead {
    gate: u8,
    body: [u8; VALUE_AT],
}

/// The contents of a segment's file that are compared, by what its device has read and written. They are known from the
/// first read of the whole file on, until a call fails or writes something that isn't a slot's gate or body.
#[derive(Default, Drop)]
pub(crate) struct Contents {
    start: [u8; START_LEN],
    header_gate: u8,
    slots: [SlotHead; SLOT_COUNT as usize],
    /// The slot whose gate this device opened last, if it opened one.
    opened: Option<u64>,
    /// How many syncs come before the next write that compares the file. `None` if its contents aren't known.
    due_in: Option<u8>,
}

impl Contents {
    /// Notes that these bytes were read from there on. If they are the whole file, its contents are known.
    pub(crate) fn note_read(&mut self, at: u64, bytes: &[u8]) {
        if at == 0 && bytes.len() == FILE_LEN as usize {
            self.start.copy_from_slice(&bytes[..START_LEN]);
            self.header_gate = bytes[HEADER_GATE_AT as usize];
            for (slot, head) in self.slots.iter_mut().enumerate() {
                let body = BODIES_AT[slot] as usize;
                head.gate = bytes[GATES_AT[slot] as usize];
                head.body.copy_from_slice(&bytes[body..body + VALUE_AT]);
            }
            self.opened = None;
            self.due_in = Some(0);
        }
    }

    /// Notes that the file was synced, or that this failed.
    pub(crate) fn note_sync(&mut self, is_done: bool) {
        self.due_in = match self.due_in {
            Some(syncs) if is_done => Some(syncs.saturating_sub(1)),
            _ => None,
        };
    }

    /// Writes these bytes from there on. If a comparison is due and the file's contents differ, nothing is written, and
    /// each later write compares again.
    pub(crate) fn write(
        &mut self,
        file: &mut File,
        at: u64,
        bytes: &[u8],
    ) -> Result<(), CallFault> {
        if let Some(0) = self.due_in {
            match self.is_in(file) {
                Ok(true) => self.due_in = Some(STORE_SYNCS),
                Ok(false) => return Err(CallFault::Overwritten),
                // It was cut meanwhile.
                Err(reason) if reason.kind() == ErrorKind::UnexpectedEof => {
                    return Err(CallFault::Overwritten);
                }
                Err(reason) => {
                    let call = "read";
                    return Err(CallFault::System { call, reason });
                }
            }
        }
        if let Err(reason) = file.write_all_at(bytes, at) {
            self.due_in = None;
            let call = "write";
            return Err(CallFault::System { call, reason });
        }
        self.note_write(at, bytes);
        Ok(())
    }

    /// Notes that these bytes were written from there on.
    fn note_write(&mut self, at: u64, bytes: &[u8]) {
        for (slot, head) in self.slots.iter_mut().enumerate() {
            if at == GATES_AT[slot] && bytes.len() == 1 {
                head.gate = bytes[0];
                if bytes[0] == OPEN_GATE {
                    self.opened = Some(slot as u64);
                }
                return;
            }
            if at == BODIES_AT[slot] && bytes.len() >= VALUE_AT {
                head.body.copy_from_slice(&bytes[..VALUE_AT]);
                return;
            }
        }
        self.due_in = None;
    }

    /// Whether the file has the length of this, its header, the head of the slot that was stored last, and the next
    /// one's gate; before the first store, the head of each slot. Fails with `UnexpectedEof` if the file is too short.
    fn is_in(&self, file: &mut File) -> io::Result<bool> {
        let mut is_same = file.seek(SeekFrom::End(0))? == FILE_LEN;
        let mut found = [0; SLOT_READ];
        file.read_exact_at(&mut found[..BLOCK_LEN], 0)?;
        is_same &= found.starts_with(&self.start);
        is_same &= found[HEADER_GATE_AT as usize] == self.header_gate;
        let (first, after) = match self.opened {
            Some(slot) if slot < SLOT_COUNT => (slot as usize, slot as usize + 1),
            _ => (0, SLOT_COUNT as usize),
        };
        for slot in first..after {
            let head = &self.slots[slot];
            file.read_exact_at(&mut found, GATES_AT[slot])?;
            is_same &= found[0] == head.gate;
            is_same &= found.ends_with(&head.body);
        }
        if after == first + 1 {
            let next = after % SLOT_COUNT as usize;
            file.read_exact_at(&mut found[..1], GATES_AT[next])?;
            is_same &= found[0] == self.slots[next].gate;
        }
        Ok(is_same)
    }
}
