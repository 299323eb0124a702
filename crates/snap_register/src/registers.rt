//! Registers with given numbers and values.
ghost use Rattle.std.specs.Prelude.{◌≡◌, ℕ, ◌^◌, ◌<◌, ◌≤◌, length, map, slice_get, Some, IfOk};
ghost use Rattle.atomic_table.specs.Seated.{TableId};
ghost use Rattle.snap_history.specs.Limits.{IsNumber, IsShort};
ghost use Rattle.snap_history.specs.declared.limits.TheConstants.{MAX_COUNT, MAX_SCANNERS};
ghost use Rattle.snap_register.specs.Words.{IsBlock};
ghost use Rattle.snap_register.specs.Parts.{IsOpening, AreWriters, AreReaders};
ghost use Rattle.snap_register.specs.declared.{words.TheConstants.BLOCK_WORDS, plan.Plan.Plan};

use crate::plan::Opening;
use crate::tables::{Parts, open};
use crate::words::{BLOCK_WORDS, VALUE_WORDS, word_of};
use snap_history::MAX_VALUE_LEN;
use std::alloc::{AllocError, Global};

/// Registers that threads share, one for each segment.
pub struct Registers;

impl Registers {
    /// Makes registers in which segment i starts with the number and value `values[i]`. Returns one seat for each
    /// segment's writer and one for each scanner, each with `looks` looks. No seat has seen an update yet. The
    /// last of them frees the registers.
    pub fn open(
        alloc: Global,
        values: &[(u64, Vec<u8>)],
        scanners: usize,
        looks: u64,
    ) -> Result<Parts, AllocError>
        requires count { (0 < length values.now) × (length values.now ≤ MAX_COUNT) }
        requires scanners { scanners ≤ MAX_SCANNERS }
        requires looks { looks ≤ 2 ^ 50 }
        requires numbers { (i : ℕ) (x : _) → slice_get values.now i ≡ Some x → IsNumber x.0 }
        requires sizes { (i : ℕ) (x : _) → slice_get values.now i ≡ Some x → IsShort x.1.items }
        ensures writers { IfOk result (λ r. length r.writers.items ≡ length values.now) }
        ensures scanners { IfOk result (λ r. length r.scanners.items ≡ scanners) }
        ensures seats { IfOk result (λ r. (z : TableId) × (p : Plan)
            × IsOpening p looks (map (λ x. (x.0, x.1.items)) values.now)
            × AreWriters z p r.writers.items × AreReaders z p r.scanners.items) }
    {
        let mut openings = Vec::new(alloc);
        for start in values {
            openings.push(opening_of(alloc, start.0, &start.1)?)?;
        }
        open(alloc, &openings, BLOCK_WORDS, scanners, looks)
    }
}

// A number and a value as words.
fn opening_of(alloc: Global, number: u64, value: &[u8]) -> Result<Opening, AllocError>
    requires { IsShort value.now }
    ensures number { IfOk result (λ x. x.number ≡ number) }
    ensures size { IfOk result (λ x. length x.words.items ≡ BLOCK_WORDS) }
    ensures block { IfOk result (λ x. IsBlock x.words.items 0 number value.now) }
{
    let mut words = [0u64; BLOCK_WORDS];
    pack(number, value, &mut words);
    Ok(Opening {
        number,
        words: words.as_slice().to_vec(alloc)?,
    })
}

// Writes the block of a number and a value.
fn pack(number: u64, value: &[u8], words: &mut [u64])
    requires bytes { IsShort value.now }
    requires words { length words.old ≡ BLOCK_WORDS }
    ensures size { length words.new ≡ BLOCK_WORDS }
    ensures block { IsBlock words.new 0 number value.now }
{
    let mut bytes = [0u8; MAX_VALUE_LEN];
    bytes[..value.len()].copy_from_slice(value);
    words[0] = number;
    words[1] = value.len() as u64;
    for q in 0..VALUE_WORDS {
        let at = 8 * q;
        words[2 + q] = word_of(&bytes[at..at + 8]);
    }
}
