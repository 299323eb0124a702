//! Makes a table and its seats.
ghost use Rattle.std.specs.Prelude.{◌≡◌, ℕ, ◌+◌, ◌*◌, ◌<◌, ◌≤◌, ◌++◌, length, map, replicate, IfOk, OnOk, slice_index};
ghost use Rattle.std.specs.{List.flat_map, Arc.arc_value};
ghost use Rattle.atomic_table.specs.Seated.{TableId};
ghost use Rattle.snap_history.specs.declared.limits.TheConstants.{MAX_COUNT, MAX_SCANNERS};
ghost use Rattle.snap_register.specs.Rule.{segments, seats};
ghost use Rattle.snap_register.specs.Setup.{plan_with, IsReady, IsFirst, IsFresh, HasSizes};
ghost use Rattle.snap_register.specs.{History.start_at, Parts.AreWriters, Parts.AreReaders, Steps.view_at};

use crate::access::Access;
use crate::plan::Opening;
use crate::seats::{ReadSeat, WriteSeat};
use crate::setup::{Setup, SplitReader, SplitWriter, TableSeat, WordTable};
use atomic_table::Table;
use snap_scan::MAX_SEGMENTS;
use std::alloc::{AllocError, Global};
use std::snapshot::Snapshot;
use std::sync::Arc;

/// The sizes of a table.
#[derive(Clone, Copy)]
struct Sizes {
    segments: usize,
    scanners: usize,
    block_words: usize,
    words: usize,
    looks: u64,
}

fn append_zeros(words: &mut Vec<u64>, count: usize) -> Result<(), AllocError>
    ensures { OnOk result (words.new.items ≡ words.old.items ++ replicate count 0) }
{
    // No memory can hold a list whose length exceeds a `usize`.
    let all = words.len().checked_add(count).ok_or(AllocError)?;
    words.resize(all, 0)
}

fn append(words: &mut Vec<u64>, x: &Opening, rest: usize) -> Result<(), AllocError>
    ensures { OnOk result (words.new.items ≡ words.old.items ++ (x.now.words.items ++ replicate rest 0)) }
{
    words.extend_from_slice(x.words.as_slice())?;
    append_zeros(words, rest)
}

// The first words of the table, of which there are `count`: zeros, then each segment's first record and `rest` zeros.
fn first_words(
    alloc: Global,
    values: &Vec<Opening>,
    front: usize,
    rest: usize,
    count: usize,
) -> Result<Vec<u64>, AllocError>
    ensures { IfOk result (λ v. v.items ≡ replicate front 0 ++ flat_map
        (λ x. x.words.items ++ replicate rest 0) values.now.items) }
{
    let mut words = Vec::with_capacity(alloc, count)?;
    append_zeros(&mut words, front)?;
    for x in values {
        append(&mut words, x, rest)?;
    }
    Ok(words)
}

// The access of a new seat.
fn access_of(
    table: &Arc<WordTable, Global>,
    seat: TableSeat,
    sizes: Sizes,
) -> Result<Access, AllocError>
    requires own { seat.table_id ≡ (arc_value table.now).shared.table_id }
    requires sized { HasSizes sizes (view_at seat).plan }
    requires fresh { IsFresh seat.table_id.words seat.me }
    ensures { IfOk result (λ c. (c.seat.table_id ≡ seat.table_id) × (c.seat.me ≡ seat.me)) }
{
    let table = Arc::try_clone(table)?;
    Ok(Access {
        table,
        seat,
        segments: sizes.segments,
        scanners: sizes.scanners,
        block_words: sizes.block_words,
        words: sizes.words,
        pins: [0; MAX_SEGMENTS],
        left: sizes.looks,
    })
}

/// The seats of one opening.
#[derive(Drop)]
pub struct Parts {
    /// The writers' seats, one for each segment, in order.
    pub writers: Vec<WriteSeat>,
    /// The scanners' seats.
    pub scanners: Vec<ReadSeat>,
}

// Makes the writers' seats.
fn seat_writers(
    alloc: Global,
    table: &Arc<WordTable, Global>,
    first_seat: &mut TableSeat,
    sizes: Sizes,
    values: &Vec<Opening>,
) -> Result<Vec<WriteSeat>, AllocError>
    requires own { first_seat.old.table_id ≡ (arc_value table.now).shared.table_id }
    requires sized { HasSizes sizes (view_at first_seat.old).plan }
    requires first { IsFirst first_seat.old.table_id.words (seats (view_at first_seat.old).plan) first_seat.old.me
        × ((view_at first_seat.old).low ≡ 0) × ((view_at first_seat.old).high ≡ sizes.segments) }
    requires numbers { (length values.now.items ≡ sizes.segments) × ((i : ℕ)
        → i < segments (view_at first_seat.old).plan → slice_index (map (λ x. x.number) values.now.items) i
        ≡ (start_at (view_at first_seat.old).plan i).number) }
    ensures first_seat { IfOk result (λ _. IsFirst first_seat.new.table_id.words sizes.scanners first_seat.new.me
        × (first_seat.new.table_id ≡ first_seat.old.table_id)
        × ((view_at first_seat.new).plan ≡ (view_at first_seat.old).plan)) }
    ensures seats { IfOk result (λ v. (length v.items ≡ sizes.segments)
        × AreWriters first_seat.old.table_id (view_at first_seat.old).plan v.items) }
{
    let mut writers = Vec::new(alloc);
    for i in 0..sizes.segments {
        let seat = table.shared.split_seat::<SplitWriter>(first_seat);
        let number = values[i].number;
        writers.push(WriteSeat::of(access_of(table, seat, sizes)?, i, number))?;
    }
    Ok(writers)
}

// Makes the scanners' seats.
fn seat_readers(
    alloc: Global,
    table: &Arc<WordTable, Global>,
    first_seat: &mut TableSeat,
    sizes: Sizes,
) -> Result<Vec<ReadSeat>, AllocError>
    requires own { first_seat.old.table_id ≡ (arc_value table.now).shared.table_id }
    requires sized { HasSizes sizes (view_at first_seat.old).plan }
    requires first { IsFirst first_seat.old.table_id.words sizes.scanners first_seat.old.me }
    ensures { IfOk result (λ v. (length v.items ≡ sizes.scanners)
        × AreReaders first_seat.old.table_id (view_at first_seat.old).plan v.items) }
{
    let mut readers = Vec::new(alloc);
    for k in 0..sizes.scanners {
        let seat = table.shared.split_seat::<SplitReader>(first_seat);
        readers.push(ReadSeat::of(access_of(table, seat, sizes)?))?;
    }
    Ok(readers)
}

/// Makes the seats of a table whose first records hold these words.
pub(crate) fn open(
    alloc: Global,
    values: &Vec<Opening>,
    block_words: usize,
    scanners: usize,
    looks: u64,
) -> Result<Parts, AllocError>
    requires count { (0 < length values.now.items) × (length values.now.items ≤ MAX_COUNT) × (scanners ≤ MAX_SCANNERS) }
    requires ready { IsReady (plan_with scanners looks block_words values.now.items) }
    ensures counts { IfOk result (λ r. (length r.writers.items ≡ length values.now.items)
        × (length r.scanners.items ≡ scanners)) }
    ensures seats { IfOk result (λ r. (z : TableId)
        × AreWriters z (plan_with scanners looks block_words values.now.items) r.writers.items
        × AreReaders z (plan_with scanners looks block_words values.now.items) r.scanners.items) }
{
    let n = values.len();
    let buffers = n + scanners + 2;
    let width = (n + 1) * block_words;
    let rest = n * block_words + (n + scanners + 1) * width;
    let all = n * buffers;
    let count = n + (all + all * width);
    let words = first_words(alloc, values, n + all, rest, count)?;
    let setup = Setup {
        scanners,
        looks,
        block_words,
        values: Snapshot::of(values),
    };
    let (table, mut first_seat) = Table::of_words(alloc, words.as_slice(), &setup)?;
    // The table has copied the words, so there are two copies for a moment.
    drop(words);
    let table = Arc::new(alloc, table)?;
    let sizes = Sizes {
        segments: n,
        scanners,
        block_words,
        words: count,
        looks,
    };
    let writers = seat_writers(alloc, &table, &mut first_seat, sizes, values)?;
    let scanners = seat_readers(alloc, &table, &mut first_seat, sizes)?;
    Ok(Parts { writers, scanners })
}
