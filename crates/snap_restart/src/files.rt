//! Opens the files of all segments.
ghost use Rattle.std.specs.Prelude.{◌≡◌, ℕ, ◌+◌, ◌-◌, ◌^◌, ◌<◌, ◌≤◌, ◌++◌, ◌∷◌, [], length, map, All, IfOk, IfErr};
ghost use Rattle.std.specs.Prelude.{vec_capacity};
ghost use Rattle.std.specs.Vec.Iter.{into_iter_items, into_iter_len};
ghost use Rattle.snap_history.specs.{declared.limits.TheConstants.MAX_COUNT, Pairs.Pairs};
ghost use Rattle.snap_restart.specs.Opened.{IsOpened, IsStopped};

use snap_disk::{Disk, Refusal};
use snap_history::MAX_COUNT;
use snap_segment::Segment;
use std::alloc::Global;
use std::vec::IntoIter;

/// Why an opening failed. No file is open, and there is no writer.
#[derive(Debug, Drop)]
pub struct Stopped<D> {
    /// All devices, in the order of their segments.
    pub devices: Vec<D>,
    pub refusal: Refusal,
    /// How many segments were opened before. For any refusal but `NoMemory` this is the index of the refused segment.
    pub segment: usize,
}

/// Opens each file as that of its segment, in order, up to the first refusal. The second list is
/// empty and has room for all devices of a `Store`.
pub(crate) fn open_segments<D: Disk + Drop>(
    alloc: Global,
    devices: Vec<D>,
) -> Result<(Vec<Segment<D>>, Vec<D>), Stopped<D>>
    requires count { length devices.items ≤ MAX_COUNT }
    requires headroom { All (λ d. D.failure_count d < 2 ^ 64 - 1) devices.items }
    ensures opened { IfOk result (λ r. Pairs (IsOpened D.Disk (length devices.items)) devices.items r.0.items) }
    ensures emptied { IfOk result (λ r. (r.1.items ≡ []) × (MAX_COUNT ≤ vec_capacity r.1)) }
    ensures stopped { IfErr result (λ e. IsStopped D.Disk devices.items e.devices.items e.refusal e.segment) }
{
    let count = devices.len();
    let Ok(emptied) = Vec::with_capacity(alloc, MAX_COUNT as usize) else {
        return Err(unopened(devices));
    };
    let Ok(mut segments) = Vec::with_capacity(alloc, count) else {
        return Err(unopened(devices));
    };
    let mut rest = devices.into_iter();
    'opening: while let Some(device) = rest.next() {
        let index = segments.len();
        match Segment::open(alloc, device, index as u8, count as u8) {
            Ok(segment) => keep(&mut segments, segment),
            Err((refusal, device)) => {
                return Err(Stopped {
                    devices: returned(emptied, segments, device, rest),
                    refusal,
                    segment: index,
                });
            }
        }
    }
    Ok((segments, emptied))
}

// Memory ran out before any file was opened.
fn unopened<D: Disk>(devices: Vec<D>) -> Stopped<D>
    ensures { IsStopped D.Disk devices.items result.devices.items result.refusal result.segment }
{
    Stopped {
        devices,
        refusal: Refusal::NoMemory,
        segment: 0,
    }
}

// All devices in order: those of the open segments, the refused one, and the rest.
fn returned<D: Disk + Drop>(
    mut devices: Vec<D>,
    segments: Vec<Segment<D>>,
    refused: D,
    rest: IntoIter<D>,
) -> Vec<D>
    requires empty { devices.items ≡ [] }
    requires room { length segments.items + 1 + into_iter_len rest ≤ vec_capacity devices }
    ensures { result.items ≡ map (λ s. s.device) segments.items ++ refused ∷ into_iter_items rest }
{
    release(segments, &mut devices);
    keep(&mut devices, refused);
    'rest: for device in rest {
        keep(&mut devices, device);
    }
    devices
}

/// Appends the devices of open segments to `devices`, in order.
pub(crate) fn release<D: Disk + Drop>(segments: Vec<Segment<D>>, devices: &mut Vec<D>)
    requires room { length devices.old.items + length segments.items ≤ vec_capacity devices.old }
    ensures items { devices.new.items ≡ devices.old.items ++ map (λ s. s.device) segments.items }
    ensures room { vec_capacity devices.old ≤ vec_capacity devices.new }
{
    'segments: for segment in segments {
        keep(devices, segment.into_device());
    }
}

/// Appends an item to a list that has room for it, so without allocating.
pub(crate) fn keep<T: Drop>(items: &mut Vec<T>, item: T)
    requires { length items.old.items < vec_capacity items.old }
    ensures items { items.new.items ≡ items.old.items ++ item ∷ [] }
    ensures room { vec_capacity items.old ≤ vec_capacity items.new }
{
    match items.push(item) {
        Ok(()) => {}
        Err(_) => unreachable!(),
    }
}
