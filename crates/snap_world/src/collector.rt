//! One scan in progress: its double collects, and the values that it saw last.
#![tactic(auto, using(crate::proofs::Looks::look_facts))]

ghost use Rattle.std.specs.Prelude.{◌≡◌, ◌<◌, ℕ, length, map, IfOk, MatchBool};
ghost use Rattle.snap_scan.specs.Sets.{IsAt, named};
ghost use Rattle.snap_world.specs.Answers.{pair_of};
ghost use Rattle.snap_world.specs.inside.Gathers.{IsLookOf, IsUnderWay, MayLook, entry_in};

use crate::event::PartEntry;
use crate::register::Register;
use crate::value::Value;
use snap_scan::{MAX_SEGMENTS, Next, Scan, SegmentSet};
use std::alloc::{AllocError, Global};

/// A scan with the value of the latest look at each of its segments and, once the scan has its answer, that answer. The
/// memory has a place for each segment, but only the places of the scan's set mean anything.
#[derive(Drop)]
pub struct Collector {
    pub scan: Scan,
    pub memory: Vec<Value>,
}

impl Collector {
    /// Takes one look, at the segment whose turn it is, and returns its number. It copies the value
    /// or, if the scan borrows, the view.
    ///
    /// A borrow is right because the segment's number rose by two since this scan's first look at it: its last update
    /// began after the one before was shown, so after this scan began, and the view is the memory at a moment since
    /// then. No register has a view from before a crash here, since both updates were shown during this scan.
    pub fn look(&mut self, registers: &Vec<Register>) -> u64
        requires under_way { IsUnderWay self.old }
        requires stands { MayLook registers.now.items self.old }
        ensures look { IsLookOf registers.now.items self.old result self.new }
    {
        let Next::Look(segment) = self.scan.next() else {
            unreachable!();
        };
        let register = &registers[segment];
        let number = register.number;
        self.scan.told(segment, number);
        match self.scan.next() {
            Next::Borrow(_) => copy_all(&mut self.memory, &register.view),
            _ => self.memory[segment].set(register.value.as_slice()),
        }
        number
    }

    /// Whether the scan has its answer.
    pub fn is_done(&self) -> bool
        ensures under_way { MatchBool result (IsUnderWay self.now → ⊥) (IsUnderWay self.now) }
    {
        match self.scan.next() {
            Next::Look(_) => false,
            Next::Clean | Next::Borrow(_) => true,
        }
    }
}

/// Copies each value.
pub fn copy_all(to: &mut Vec<Value>, from: &Vec<Value>)
    requires { length to.old.items ≡ length from.now.items }
    ensures { to.new.items ≡ from.now.items }
{
    for i in 0..from.len() {
        to[i].set(from[i].as_slice());
    }
}

/// The bytes of each value, in vectors of their own.
pub fn bytes_of_all(alloc: Global, values: &Vec<Value>) -> Result<Vec<Vec<u8>>, AllocError>
    ensures { IfOk result (λ m. map (λ v. v.items) m.items ≡ values.now.items) }
{
    let mut all = Vec::new(alloc);
    for i in 0..values.len() {
        all.push(values[i].as_slice().to_vec(alloc)?)?;
    }
    Ok(all)
}

/// Each segment of the set with the bytes of its value, in ascending order.
pub fn entries_of(
    alloc: Global,
    values: &Vec<Value>,
    set: SegmentSet,
) -> Result<Vec<PartEntry>, AllocError>
    requires within { (place i : ℕ) → IsAt set.bits place i → i < length values.now.items }
    ensures { IfOk result (λ part. map pair_of part.items ≡ map (entry_in values.now.items) (named set.bits)) }
{
    let mut part = Vec::new(alloc);
    for segment in 0..MAX_SEGMENTS {
        if set.has(segment) {
            let value = values[segment].as_slice().to_vec(alloc)?;
            part.push(PartEntry { segment, value })?;
        }
    }
    Ok(part)
}
