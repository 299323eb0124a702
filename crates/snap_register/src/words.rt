//! Numbers and values as words, the sizes of a record, and words of the table.
ghost use Rattle.std.specs.Prelude.{◌≡◌, ℕ, ◌≤◌, ◌<◌, ◌+◌, ◌-◌, ◌*◌, ◌^◌, ◌++◌, ◌∷◌, [], length, take, drop, replicate};
ghost use Rattle.std.specs.Prelude.{slice_index};
ghost use Rattle.std.specs.Int.{w64, to_le_bytes};
ghost use Rattle.snap_history.specs.declared.limits.TheConstants.{MAX_VALUE_LEN};
ghost use Rattle.snap_register.specs.Words.{bytes_at, piece, words_for};
ghost use Rattle.snap_register.specs.{Rule.width, Rule.IsLegal, Rule.WasAt, Held.held};
ghost use Rattle.snap_register.specs.Steps.{view_at, HasSeat, LiesAt, IsNext, Drafts};

use crate::setup::{Read, Redraft, Reuse, TableSeat, WordTable};
use snap_history::MAX_VALUE_LEN;

/// The most words of a value.
pub(crate) const VALUE_WORDS: usize = MAX_VALUE_LEN / 8;

/// The most words of a block: a number, a length and a value.
pub(crate) const BLOCK_WORDS: usize = 2 + VALUE_WORDS;

/// How many words a block takes whose value has `length` bytes.
pub(crate) fn block_size(length: usize) -> usize
    requires { length ≤ MAX_VALUE_LEN }
    ensures { result ≡ 2 + words_for length }
{
    2 + (length + 7) / 8
}

/// Eight bytes as a word, the first byte lowest.
pub(crate) fn word_of(bytes: &[u8]) -> u64
    requires { length bytes.now ≡ 8 }
    ensures { to_le_bytes w64 result ≡ bytes.now }
{
    u64::from_le_bytes([
        bytes[0], bytes[1], bytes[2], bytes[3], bytes[4], bytes[5], bytes[6], bytes[7],
    ])
}

/// Fewer than eight bytes as a word, the first byte lowest, followed by zeros.
pub(crate) fn tail_word(bytes: &[u8]) -> u64
    requires { length bytes.now < 8 }
    ensures front { take (length bytes.now) (to_le_bytes w64 result) ≡ bytes.now }
    ensures zeros { drop (length bytes.now) (to_le_bytes w64 result) ≡ replicate (8 - length bytes.now) 0 }
{
    let mut word = [0; 8];
    word[..bytes.len()].copy_from_slice(bytes);
    word_of(&word)
}

/// Appends `count` words of a pinned record, from this place on, to the draft, which ends at `target`. The table is an
/// argument of its own, here and in `copy_value`, so that no word needs a lookup of where it is.
pub(crate) fn copy_words(
    table: &WordTable,
    seat: &mut TableSeat,
    source: usize,
    target: usize,
    count: usize,
)
    requires own { seat.old.table_id ≡ table.now.shared.table_id }
    requires seated { HasSeat seat.old }
    requires words { (j : ℕ) × (from : ℕ) × LiesAt (view_at seat.old) j from source
        × (from + count ≤ length (held (view_at seat.old) j)) }
    requires place { IsNext (view_at seat.old) target
        × (length (view_at seat.old).pool.draft + count ≤ width (view_at seat.old).plan) }
    requires fits { (source + count < 2 ^ 64) × (target + count < 2 ^ 64) }
    ensures copied { (j from : ℕ) → LiesAt (view_at seat.old) j from source
        → from + count ≤ length (held (view_at seat.old) j) → Drafts seat.old seat.new
        ((view_at seat.old).pool.draft ++ piece (held (view_at seat.old) j) from count) }
{
    for q in 0..count {
        let word = load_word(table, seat, source + q);
        draft_word(table, seat, target + q, word);
    }
}

/// Makes x the next word of the free buffer, which is at this place. Returns what it was. A word that is there already
/// isn't stored: a load takes a fraction of the time of a sequentially consistent store.
pub(crate) fn draft_word(table: &WordTable, seat: &mut TableSeat, place: usize, x: u64) -> u64
    requires own { seat.old.table_id ≡ table.now.shared.table_id }
    requires seated { HasSeat seat.old }
    requires place { IsNext (view_at seat.old) place }
    ensures drafted { Drafts seat.old seat.new ((view_at seat.old).pool.draft ++ x ∷ []) }
    ensures seated { HasSeat seat.new }
    ensures old { WasAt (view_at seat.old) (length (view_at seat.old).pool.draft) result }
{
    let old = table.shared.load::<Reuse>(seat, place);
    if old != x {
        table.shared.store::<Redraft>(seat, place, x);
    }
    old
}

/// Copies the value of the block at this place of a pinned record, `count` words, to the front of `out`.
pub(crate) fn copy_value(
    table: &WordTable,
    seat: &mut TableSeat,
    place: usize,
    count: usize,
    out: &mut [u8],
)
    requires own { seat.old.table_id ≡ table.now.shared.table_id }
    requires seated { HasSeat seat.old }
    requires block { (j : ℕ) × (at : ℕ) × LiesAt (view_at seat.old) j at place
        × (at + 2 + count ≤ length (held (view_at seat.old) j)) }
    requires fits { place + 2 + count < 2 ^ 64 }
    requires room { 8 * count ≤ length out.old }
    ensures size { length out.new ≡ length out.old }
    ensures bytes { (j at : ℕ) → LiesAt (view_at seat.old) j at place
        → at + 2 + count ≤ length (held (view_at seat.old) j)
        → take (8 * count) out.new ≡ bytes_at (held (view_at seat.old) j) (at + 2) count }
    ensures same { (seat.new.table_id ≡ seat.old.table_id) × (seat.new.id ≡ seat.old.id) × (seat.new.me ≡ seat.old.me) }
{
    for q in 0..count {
        let word = load_word(table, seat, place + 2 + q);
        let to = 8 * q;
        out[to..to + 8].copy_from_slice(&word.to_le_bytes());
    }
}

/// Loads the word at this place of the table.
pub(crate) fn load_word(table: &WordTable, seat: &mut TableSeat, place: usize) -> u64
    requires own { seat.old.table_id ≡ table.now.shared.table_id }
    requires seated { HasSeat seat.old }
    requires place { (j : ℕ) × (q : ℕ) × LiesAt (view_at seat.old) j q place }
    ensures word { (j q : ℕ) → LiesAt (view_at seat.old) j q place
        → result ≡ slice_index (held (view_at seat.old) j) q }
    ensures legal { IsLegal (view_at seat.old).plan (view_at seat.old).seen }
    ensures same { (seat.new.table_id ≡ seat.old.table_id) × (seat.new.id ≡ seat.old.id) × (seat.new.me ≡ seat.old.me) }
{
    table.shared.load::<Read>(seat, place)
}
