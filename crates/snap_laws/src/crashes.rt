//! The laws of a crash aren't empty: their premises follow from the contracts of real calls.

ghost use Rattle.std.specs.Prelude.{◌≡◌, ℕ, ◌-◌, ◌^◌, ◌<◌, ◌≤◌, List, [], ◌∷◌, length, map, All, IfOk, OnOk, IfSome};
ghost use Rattle.snap_history.specs.{declared.limits.TheConstants.MAX_COUNT, Limits.IsNumber, Limits.IsShort};
ghost use Rattle.snap_slot.specs.Layout.{IsFormatted};
ghost use Rattle.snap_segment.specs.{Old.OldHolds, States.IsAtRest};
ghost use Rattle.snap_writer.specs.Judge.{IsJudged};
ghost use Rattle.snap_laws.specs.Worked.{IsRecoveredNow, KeepAStart, ComeThrough};
ghost use Rattle.snap_laws.specs.Together.{AreTwo, IsRecoveredAt, in_its_store, stored_unshown};
ghost use Rattle.snap_laws.specs.Between.{GoesOnWith, PutGoesOn, CutOffGoesOn, BeginsAgain, InitGoesOn};
ghost use Rattle.snap_laws.specs.{NoLoss.IsAWriter, NoLoss.LosesNothing, Opened.AreNew, Again.AreOfOne};
ghost use Rattle.snap_laws.specs.{Again.GoOnBehind, Moment.AtOnceLaw, Moment.OverLaw};
ghost use Rattle.snap_order.specs.Order.{IsFileWithinLimits, IsPlace};
ghost use Rattle.snap_register.specs.declared.plan.Plan.{Plan};
ghost use Rattle.snap_restart.specs.Closed.{AreBack};

use snap_disk::{Disk, Refusal};
use snap_file_commands::{CommandFault, LoadedFile, MigrationFault, act, act_pair, found, load};
use snap_history::LAST_NUMBER;
use snap_order::{FileOrder, MigrateOptions, Status};
use snap_restart::{Stopped, Store, life_laws, open_all};
use snap_segment::Segment;
use snap_writer::{Judgement, Writer};
use std::alloc::Global;
use std::io::{Read, Write};

/// Opens all files and closes them. A crash of all devices afterwards is recovered by the law of a cut. Honest devices
/// then keep the memory of a start, so any number of crashes and starts may follow.
pub fn worked<D: Disk + Drop>(alloc: Global, devices: Vec<D>) -> Result<Vec<D>, Stopped<D>>
    requires count { (0 < length devices.items) × (length devices.items ≤ MAX_COUNT) }
    requires headroom { All (λ d. D.failure_count d < 2 ^ 64 - 1) devices.items }
    ensures now { IfOk result (λ ds. IsRecoveredNow D.Disk ds.items) }
    ensures start { IfOk result (λ ds. KeepAStart D.Disk ds.items) }
{
    match open_all(alloc, devices, 1) {
        Ok((store, _)) => Ok(store.close()),
        Err(stopped) => Err(stopped),
    }
}

/// Opens all files and returns their devices, however the opening ends. Whatever happened to honest
/// devices before, this opening may be appended to it.
pub fn open_and_give_back<D: Disk + Drop>(alloc: Global, devices: Vec<D>) -> Vec<D>
    requires count { (0 < length devices.items) × (length devices.items ≤ MAX_COUNT) }
    requires headroom { All (λ d. D.failure_count d < 2 ^ 64 - 1) devices.items }
    ensures { ComeThrough D.Disk devices.items result.items }
{
    match open_all(alloc, devices, 1) {
        Ok((store, _)) => store.close(),
        Err(stopped) => stopped.devices,
    }
}

/// Closes a [`Store`], whatever its writers did, and opens its files again. The new writers
/// continue where the old ones stopped.
pub fn reopen<D: Disk + Drop>(alloc: Global, store: Store<D>) -> Result<Store<D>, Stopped<D>>
    requires back { AreBack store.writers.items store.scanners.items }
    requires writers { (plan : Plan) × AreOfOne D.Disk plan store.writers.items }
    requires headroom { All (λ d. D.failure_count d < 2 ^ 64 - 1) (map (λ w. w.segment.device) store.writers.items) }
    ensures { IfOk result (λ r. GoOnBehind D.Disk store.writers.items store.scanners.items r.writers.items) }
{
    match open_all(alloc, store.close(), 1) {
        Ok((store, _)) => Ok(store),
        Err(stopped) => Err(stopped),
    }
}

/// Opens all files twice, so the premises of [`reopen`] are met by a real call.
pub fn open_twice<D: Disk + Drop>(alloc: Global, devices: Vec<D>)
    requires count { (0 < length devices.items) × (length devices.items ≤ MAX_COUNT) }
    requires headroom { All (λ d. D.failure_count d < 2 ^ 64 - 1) devices.items }
{
    if let Ok((store, _)) = open_all(alloc, devices, 1) {
        let _ = reopen(alloc, store);
    }
}

/// Both writers of an opening update once, from the seats that the opening gave them. A crash is
/// recovered that finds both inside their stores, or the second with its update stored but not
/// shown, or both so. Nothing says which of them was first.
pub fn two_at_once<D: Disk>(
    first: &mut Writer<D>,
    second: &mut Writer<D>,
    one: u64,
    value: &[u8],
    two: u64,
    other: &[u8],
)
    requires writers { AreTwo D.Disk first.old second.old }
    requires first { IsJudged first.old one value.now Judgement.Go }
    requires second { IsJudged second.old two other.now Judgement.Go }
    ensures inside { IsRecoveredAt D.Disk first.old.seat.plan (in_its_store first.old value.now first.new.segment.device
        ∷ in_its_store second.old other.now second.new.segment.device ∷ []) }
    ensures beside { IsRecoveredAt D.Disk first.old.seat.plan (in_its_store first.old value.now first.new.segment.device
        ∷ stored_unshown second.old second.new ∷ []) }
    ensures between { IsRecoveredAt D.Disk first.old.seat.plan (stored_unshown first.old first.new
        ∷ stored_unshown second.old second.new ∷ []) }
{
    let _ = first.update(one, value);
    let _ = second.update(two, other);
}

/// The writers of all files, or `None` if a file can't be opened.
fn writers_of<D: Disk + Drop>(alloc: Global, devices: Vec<D>) -> Option<Vec<Writer<D>>>
    requires count { (0 < length devices.items) × (length devices.items ≤ MAX_COUNT) }
    requires headroom { All (λ d. D.failure_count d < 2 ^ 64 - 1) devices.items }
    ensures { IfSome result (λ writers. AreNew D.Disk devices.items writers.items) }
{
    match open_all(alloc, devices, 1) {
        Ok((store, _)) => Some(store.writers),
        Err(_) => None,
    }
}

/// Opens two files, takes their writers and updates both, unless a number is the last one. So the
/// premises of [`two_at_once`] are met by real calls.
pub fn open_two<D: Disk + Drop>(alloc: Global, devices: Vec<D>, value: &[u8], other: &[u8])
    requires count { length devices.items ≡ 2 }
    requires headroom { All (λ d. D.failure_count d < 2 ^ 64 - 1) devices.items }
    requires value { IsShort value.now }
    requires other { IsShort other.now }
{
    let Some(mut writers) = writers_of(alloc, devices) else {
        return;
    };
    let [first, second] = writers.as_mut_slice() else {
        return;
    };
    let one = first.number();
    let two = second.number();
    if one != LAST_NUMBER && two != LAST_NUMBER {
        two_at_once(first, second, one + 1, value, two + 1, other);
    }
}

/// Two updates of one writer, whatever their results. A crash at any time since before the first
/// one leaves the number stored then, with its value, or a later number.
pub fn goes_on<D: Disk>(writer: &mut Writer<D>, one: u64, value: &[u8], two: u64, other: &[u8])
    requires { IsAWriter D.Disk writer.old }
    ensures { LosesNothing D.Disk writer.old writer.new }
{
    life_laws::<D>();
    let _ = writer.update(one, value);
    let _ = writer.update(two, other);
}

/// Opens all files and updates the last writer; if that succeeds, calls [`goes_on`] with it. So the
/// premise of [`goes_on`] is met by real calls.
pub fn open_and_go_on<D: Disk + Drop>(alloc: Global, devices: Vec<D>, number: u64, value: &[u8])
    requires count { (0 < length devices.items) × (length devices.items ≤ MAX_COUNT) }
    requires headroom { All (λ d. D.failure_count d < 2 ^ 64 - 1) devices.items }
{
    let Some(mut writers) = writers_of(alloc, devices) else {
        return;
    };
    let Some(mut writer) = writers.pop() else {
        return;
    };
    if writer.update(number, value).is_ok() {
        goes_on(&mut writer, number, value, number, b"");
    }
}

/// `put` on a file between two openings. Whatever happened to all files before: if it says that it has
/// stored, that store may be appended to it.
pub fn put_between<D: Disk, R: Read, W: Write>(
    alloc: Global,
    order: &FileOrder<'_>,
    disk: D,
    reader: &mut R,
    writer: &mut W,
) -> (D, Result<Status, CommandFault>)
    requires limits { IsFileWithinLimits order.now }
    requires headroom { D.failure_count disk < 2 ^ 64 - 1 }
    ensures { IfOk result.1 (λ _. PutGoesOn D.Disk order.now (R.remaining reader.old) disk result.0) }
{
    act(alloc, order, disk, reader, writer)
}

/// The store of a `put` between two openings, of a file that was opened for it: a crash or a fault at any time since it
/// began leaves a device with which its being cut off may be appended to whatever happened to all files before.
pub fn store_between<D: Disk>(segment: &mut Segment<D>, value: &[u8]) -> Result<u64, Refusal>
    requires unfenced { segment.old.begun ≡ None }
    requires rests { D.is_honest segment.old.device → IsAtRest segment.old.index
        segment.old.count segment.old.number segment.old.value segment.old.spare_open (D.device segment.old.device) }
    ensures { CutOffGoesOn D.Disk value.now segment.old segment.new }
{
    segment.store(value)
}

/// Opens a file and stores a value in it, so the premises of [`store_between`] are met by a real call.
pub fn open_and_store<D: Disk + Drop>(alloc: Global, disk: D, index: u8, count: u8, value: &[u8])
    requires below { index < count }
    requires few { count ≤ MAX_COUNT }
    requires headroom { D.failure_count disk < 2 ^ 64 - 1 }
{
    if let Ok(mut segment) = Segment::open(alloc, disk, index, count) {
        let _ = store_between(&mut segment, value);
    }
}

/// `init` on a file between two openings. If it is done, and whatever happened to all files before: it
/// changed nothing, or its file was blank, and is made anew in place of one that was lost.
pub fn init_between<D: Disk, W: Write>(
    alloc: Global,
    disk: D,
    index: u8,
    count: u8,
    writer: &mut W,
) -> (D, Result<Status, CommandFault>)
    requires below { index < count }
    requires few { count ≤ MAX_COUNT }
    requires headroom { D.failure_count disk < 2 ^ 64 - 1 }
    ensures { IfOk result.1 (λ _. InitGoesOn D.Disk index count disk result.0) }
{
    found(alloc, disk, index, count, writer)
}

/// `load` of one file between two openings. If it is done, its segment begins again with the number and
/// the value of the dump; a file that was formatted goes on as it was.
pub fn load_between<D: Disk, W: Write>(
    alloc: Global,
    of: &LoadedFile<'_>,
    disk: &mut D,
    writer: &mut W,
) -> Result<Status, CommandFault>
    requires below { of.now.index < of.now.count }
    requires few { of.now.count ≤ MAX_COUNT }
    requires number { IsNumber of.now.number }
    requires fits { IsShort of.now.value.now }
    requires headroom { D.failure_count disk.old < 2 ^ 64 - 1 }
    ensures made { OnOk result (D.is_honest disk.new → BeginsAgain D.Disk of.now.count
        of.now.index of.now.number of.now.value.now disk.new) }
    ensures spared { IsFormatted (D.device disk.old).bytes → D.is_honest disk.new
        → GoesOnWith D.Disk of.now.count of.now.index [] disk.old disk.new }
{
    load(alloc, of, disk, writer)
}

/// `migrate` of one file between two openings. If it is done, its segment begins again with the number
/// and the value of the old file.
pub fn migrate_between<O: Disk, N: Disk, W: Write>(
    alloc: Global,
    order: &MigrateOptions<'_>,
    old: O,
    new: N,
    writer: &mut W,
) -> (O, N, Result<Status, MigrationFault>)
    requires place { IsPlace order.now.index order.now.count }
    requires old_headroom { O.failure_count old < 2 ^ 64 - 1 }
    requires new_headroom { N.failure_count new < 2 ^ 64 - 1 }
    ensures { OnOk result.2 (O.is_honest result.0 → N.is_honest result.1 → (k : ℕ) × (v : List ℕ)
        × OldHolds (O.device old).bytes k v × BeginsAgain N.Disk order.now.count order.now.index k v result.1) }
{
    act_pair(alloc, order, old, new, writer)
}

/// Registers keep their rule as an opening made them, so a crash may come before anything is shown, wherever the
/// writers are by then: before their first stores, inside them, or after them. The files may then be opened again. The
/// plan of the registers has to be ready, as it is wherever registers are made.
pub fn moment_laws<D: Disk>()
    ensures at_once { AtOnceLaw D.Disk }
    ensures over { OverLaw D.Disk }
{}
