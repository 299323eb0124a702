//! A [`Store`]: the writers and scanners of files that were opened together.
ghost use Rattle.std.specs.Prelude.{◌≡◌, ℕ, ◌+◌, ◌-◌, ◌^◌, ◌<◌, ◌≤◌, List, [], length, map, slice_get, Some, All, IfOk};
ghost use Rattle.std.specs.Prelude.{IfErr, vec_capacity};
ghost use Rattle.snap_register.specs.Parts.{IsOpening, AreWriters, AreReaders};
ghost use Rattle.snap_register.specs.{Registers.RegistersId, declared.plan.Plan.Plan};
ghost use Rattle.snap_history.specs.{declared.limits.TheConstants.MAX_COUNT, declared.limits.TheConstants.MAX_SCANNERS};
ghost use Rattle.snap_history.specs.{Limits.IsNumber, Limits.IsShort, History.Update, Pairs.Pairs};
ghost use Rattle.snap_writer.specs.Writer.{IsPaired};
ghost use Rattle.snap_restart.specs.Closed.{AreBack, IsHistory, HoldsAfter};
ghost use Rattle.snap_restart.specs.Opened.{IsOpened, IsStopped, AreFresh, Starts, recovered, contents};
ghost use Rattle.snap_restart.specs.Crash.{AreOpened, StayKept, AnyCut};
ghost use Rattle.snap_restart.specs.Durability.{AllStays};

use crate::files::{Stopped, keep, open_segments, release};
use crate::report::{Recovered, Report};
use crate::shutdown::{hear_everybody, release_all};
use snap_disk::{Disk, Refusal};
use snap_memory::Scanner;
use snap_register::{Parts, ReadSeat, Registers, WriteSeat};
use snap_segment::Segment;
use snap_writer::Writer;
use std::alloc::{AllocError, Global};

/// How many looks each writer and each scanner has between two openings: enough for 35 years at a million a second.
pub const LOOKS: u64 = 1 << 50;

/// The writers and the scanners of one opening.
///
/// Both may be taken out. Once all are put back, the writers in the order of their segments, the store can be closed.
#[derive(Drop)]
pub struct Store<D: Disk> {
    pub writers: Vec<Writer<D>>,
    pub scanners: Vec<Scanner>,
    /// Has room for all devices, so that closing allocates nothing.
    devices: Vec<D>,
    ghost empty: { devices.items ≡ [] },
    ghost room: { MAX_COUNT ≤ vec_capacity devices },
}

impl<D: Disk + Drop> Store<D> {
    /// Returns the devices, in the order of their segments. It allocates nothing and makes no device call.
    ///
    /// All that writers and scanners have seen are beginnings of one history, and each device holds
    /// the number and the value of its segment after it. Of a fenced segment a crash may leave the
    /// next number with the value whose store failed.
    pub fn close(self) -> Vec<D>
        requires back { AreBack self.writers.items self.scanners.items }
        ensures devices { result.items ≡ map (λ w. w.segment.device) self.writers.items }
        ensures history { (h : List Update) × IsHistory h self.writers.items self.scanners.items
            × ((i : ℕ) (w : _) → slice_get self.writers.items i ≡ Some w → HoldsAfter D.Disk h i w) }

        // An earlier crash of all devices is recovered as one memory, if it found them so that
        // nobody had seen an update that its writer hadn't shown.
        ensures crash { (h : List Update) × IsHistory h self.writers.items self.scanners.items
            × AnyCut D.Disk h self.writers.items self.scanners.items }
    {
        let Store {
            mut writers,
            mut scanners,
            devices,
        } = self;
        hear_everybody(&mut writers, &mut scanners);
        release_all(writers, devices)
    }

    /// Returns the writers, in the order of their segments, and the scanners, for callers that never close it.
    pub fn into_parts(self) -> (Vec<Writer<D>>, Vec<Scanner>)
        ensures writers { result.0.items ≡ self.writers.items }
        ensures scanners { result.1.items ≡ self.scanners.items }
    {
        (self.writers, self.scanners)
    }
}

/// Opens all files, in the order of their segments, then makes the registers, so that each writer starts with the
/// number and the value of its file. Each file is synced before it is read, so what is served survives any later crash.
///
/// Stops at the first file that is refused. `NoMemory` may also come before the first file or after the last. After an
/// error all devices are returned, in order, and a crash leaves of each only what it could have left before.
pub fn open_all<D: Disk + Drop>(
    alloc: Global,
    devices: Vec<D>,
    scanners: usize,
) -> Result<(Store<D>, Report), Stopped<D>>
    requires count { (0 < length devices.items) × (length devices.items ≤ MAX_COUNT) }
    requires scanners { (0 < scanners) × (scanners ≤ MAX_SCANNERS) }
    requires headroom { All (λ d. D.failure_count d < 2 ^ 64 - 1) devices.items }

    // Each file was opened, and its writer has its number and value.
    ensures opened { IfOk result (λ r. Pairs (IsOpened D.Disk
        (length devices.items)) devices.items (map (λ w. w.segment) r.0.writers.items)) }
    ensures starts { IfOk result (λ r. (i : ℕ) (w : _) → slice_get r.0.writers.items i ≡ Some w → IsPaired w) }

    // No update was seen and no look was made, and the `Store` can be closed as it is.
    ensures fresh { IfOk result (λ r. AreFresh r.0.writers.items r.0.scanners.items) }
    ensures scanners { IfOk result (λ r. length r.0.scanners.items ≡ scanners) }
    ensures back { IfOk result (λ r. AreBack r.0.writers.items r.0.scanners.items) }
    ensures report { IfOk result (λ r. r.1.segments.items ≡ map (λ w. recovered w.segment) r.0.writers.items) }

    // A crash of all devices at any moment from now on is recovered as the memory after the history
    // of that moment, followed by at most one begun update of each writer. If the files hold what
    // such a crash left, the earlier history continues.
    ensures crash { IfOk result (λ r. AreOpened D.Disk devices.items r.0.writers.items) }

    // What a writer has stored stays: once an update was acknowledged with number k, each later
    // crash leaves k with its value, or a later number with the value that the writer gave it.
    ensures stays { IfOk result (λ r. AllStays D.Disk r.0.writers.items) }

    // A crash during the opening, however it ends, leaves the memory from before.
    ensures kept_ok { IfOk result (λ r. StayKept D.Disk devices.items (map (λ w. w.segment.device) r.0.writers.items)) }
    ensures kept_err { IfErr result (λ e. StayKept D.Disk devices.items e.devices.items) }

    // After a refusal there is no writer, and all devices are returned.
    ensures stopped { IfErr result (λ e. IsStopped D.Disk devices.items e.devices.items e.refusal e.segment) }
{
    let (segments, mut emptied) = match open_segments(alloc, devices) {
        Ok(opened) => opened,
        Err(stopped) => return Err(stopped),
    };
    let count = segments.len();
    match take_memory(alloc, &segments, scanners) {
        Ok((parts, writers, scanners, report)) => {
            let store = Store {
                writers: place_writers(segments, parts.writers, writers),
                scanners: place_scanners(parts.scanners, scanners),
                devices: emptied,
            };
            Ok((store, report))
        }
        Err(_) => {
            release(segments, &mut emptied);
            Err(Stopped {
                devices: emptied,
                refusal: Refusal::NoMemory,
                segment: count,
            })
        }
    }
}

// Allocates all memory of a store, except that of its files: the seats, room for all writers, room for all scanners,
// and the report.
#[tactic(auto, using(crate::proofs::Removals::no_ok))]
fn take_memory<D: Disk + Drop>(
    alloc: Global,
    segments: &Vec<Segment<D>>,
    scanners: usize,
) -> Result<(Parts, Vec<Writer<D>>, Vec<Scanner>, Report), AllocError>
    requires count { (0 < length segments.now.items) × (length segments.now.items ≤ MAX_COUNT) }
    requires scanners { scanners ≤ MAX_SCANNERS }
    ensures counts { IfOk result (λ r. (length r.0.writers.items ≡ length segments.now.items)
        × (length r.0.scanners.items ≡ scanners)) }
    ensures seats { IfOk result (λ r. (z : RegistersId) × (p : Plan)
        × IsOpening p LOOKS (map contents segments.now.items)
        × AreWriters z p r.0.writers.items × AreReaders z p r.0.scanners.items) }
    ensures writers { IfOk result (λ r. (r.1.items ≡ []) × (length segments.now.items ≤ vec_capacity r.1)) }
    ensures scanners { IfOk result (λ r. (r.2.items ≡ []) × (scanners ≤ vec_capacity r.2)) }
    ensures report { IfOk result (λ r. r.3.segments.items ≡ map recovered segments.now.items) }
{
    let parts = Registers::open(alloc, &values_of(alloc, segments)?, scanners, LOOKS)?;
    let places = Vec::with_capacity(alloc, segments.len())?;
    let scanners = Vec::with_capacity(alloc, scanners)?;
    Ok((parts, places, scanners, report_of(alloc, segments)?))
}

// The numbers and values of the segments, in order.
#[tactic(auto, using(crate::proofs::Removals::no_ok))]
fn values_of<D: Disk>(
    alloc: Global,
    segments: &Vec<Segment<D>>,
) -> Result<Vec<(u64, Vec<u8>)>, AllocError>
    ensures contents { IfOk result (λ v. map (λ x. (x.0, x.1.items)) v.items ≡ map contents segments.now.items) }
    ensures numbers { IfOk result (λ v. (i : ℕ) (x : _) → slice_get v.items i ≡ Some x → IsNumber x.0) }
    ensures sizes { IfOk result (λ v. (i : ℕ) (x : _) → slice_get v.items i ≡ Some x → IsShort x.1.items) }
{
    let mut values = Vec::new(alloc);
    for segment in segments {
        let value = segment.value().to_vec(alloc)?;
        values.push((segment.number(), value))?;
    }
    Ok(values)
}

// The report on these segments.
fn report_of<D: Disk>(alloc: Global, segments: &Vec<Segment<D>>) -> Result<Report, AllocError>
    ensures { IfOk result (λ r. r.segments.items ≡ map recovered segments.now.items) }
{
    let mut lines = Vec::new(alloc);
    for segment in segments {
        lines.push(Recovered {
            number: segment.number(),
            length: segment.value().len(),
            spare_open: segment.spare_open(),
        })?;
    }
    Ok(Report { segments: lines })
}

// Makes a writer of each segment and its seat.
fn place_writers<D: Disk + Drop>(
    segments: Vec<Segment<D>>,
    seats: Vec<WriteSeat>,
    mut writers: Vec<Writer<D>>,
) -> Vec<Writer<D>>
    requires starts { Pairs (λ _. Starts) segments.items seats.items }
    requires empty { writers.items ≡ [] }
    requires room { length segments.items ≤ vec_capacity writers }
    ensures segments { map (λ w. w.segment) result.items ≡ segments.items }
    ensures seats { map (λ w. w.seat) result.items ≡ seats.items }
{
    let mut rest = seats.into_iter();
    'writers: for segment in segments {
        let Some(seat) = rest.next() else {
            unreachable!();
        };
        keep(&mut writers, Writer::new(segment, seat));
    }
    writers
}

// Makes a scanner of each seat.
fn place_scanners(seats: Vec<ReadSeat>, mut scanners: Vec<Scanner>) -> Vec<Scanner>
    requires empty { scanners.items ≡ [] }
    requires room { length seats.items ≤ vec_capacity scanners }
    ensures { result.items ≡ seats.items }
{
    'scanners: for seat in seats {
        keep(&mut scanners, Scanner::new(seat));
    }
    scanners
}
