//! Which file of a folder is which segment's.
ghost use Rattle.std.specs.Prelude.{◌≡◌, ◌+◌, ◌<◌, ◌≤◌, All, IfOk, IfErr, length};
ghost use Rattle.snap_history.specs.declared.limits.TheConstants.{MAX_COUNT};
ghost use Rattle.snap_file_commands.specs.SegmentOrder.{IsFaultOf, IsOneOf, IsOrderOf, IsSeating};

use snap_history::MAX_COUNT;
use std::alloc::{AllocError, Global};

/// The place of a file's segment among those of one server, by its header.
#[derive(Clone, Copy)]
pub struct SegmentPlace {
    /// Which segment: below `count` in a header that is right.
    pub index: u8,
    /// How many segments there are: 1 to [`MAX_COUNT`] in a header that is right.
    pub count: u8,
}

/// Why the files of a folder are not the segments of one server. A file is named by its index in the list of files.
#[derive(Clone, Copy)]
pub enum FolderFault {
    /// There is no file.
    Empty,
    /// The file's header has no valid place: its index isn't below its count, or the count is above [`MAX_COUNT`].
    NoPlace { file: usize },
    /// The file's header has another count than that of the first file.
    OtherCount { file: usize },
    /// Both files are of the same segment, by their headers.
    Twice { first: usize, second: usize },
    /// This segment has no file.
    Missing { index: u8, count: u8 },
    /// A growth of memory was refused.
    NoMemory,
}

/// A growth of memory was refused.
impl From<AllocError> for FolderFault {
    ghost use Rattle.snap_file_commands.specs.declared.segment_order.FolderFault.TheVariants.{NoMemory};

    ghost from_gives = { λ _ fault. fault ≡ NoMemory };

    fn from(_error: AllocError) -> FolderFault {
        FolderFault::NoMemory
    }
}

/// The files in order of segment: entry I of the answer is the file whose header says segment I. `places`
/// has what the header of each file says.
///
/// Of several faults it returns one: first those of single files, in the order of the list; then two files of one
/// segment; then the first segment that is missing. Each fault is true of the list, so complete files are always put in
/// order, unless memory runs out.
pub fn order_files(alloc: Global, places: &[SegmentPlace]) -> Result<Vec<usize>, FolderFault>
    ensures order { IfOk result (λ order. IsOrderOf places.now order.items) }
    ensures within { IfOk result (λ order. All (λ file. file < length places.now) order.items) }
    ensures some { IfOk result (λ order. 0 < length order.items) }
    ensures few { IfOk result (λ order. length order.items ≤ MAX_COUNT) }
    ensures fault { IfErr result (IsFaultOf places.now) }
{
    let count = common_count(places)?;
    let seats = seat_files(alloc, places, count)?;
    let mut order = Vec::with_capacity(alloc, seats.len())?;
    for index in 0..count {
        let Some(file) = seats[usize::from(index)] else {
            return Err(FolderFault::Missing { index, count });
        };
        order.push_reserved(file);
    }
    Ok(order)
}

/// The number of segments, which is the same in each file's header.
fn common_count(places: &[SegmentPlace]) -> Result<u8, FolderFault>
    ensures count { IfOk result (λ count. All (IsOneOf count) places.now) }
    ensures some { IfOk result (λ count. (0 < count) × (0 < length places.now)) }
    ensures few { IfOk result (λ count. count ≤ MAX_COUNT) }
    ensures fault { IfErr result (IsFaultOf places.now) }
{
    let Some(first) = places.first() else {
        return Err(FolderFault::Empty);
    };
    for (file, place) in places.iter().enumerate() {
        if place.index >= place.count || place.count > MAX_COUNT {
            return Err(FolderFault::NoPlace { file });
        }
        if place.count != first.count {
            return Err(FolderFault::OtherCount { file });
        }
    }
    Ok(first.count)
}

/// The file of each segment, if it has one.
fn seat_files(
    alloc: Global,
    places: &[SegmentPlace],
    count: u8,
) -> Result<Vec<Option<usize>>, FolderFault>
    requires { All (IsOneOf count) places.now }
    ensures seats { IfOk result (λ seats. IsSeating places.now count (length places.now) seats.items) }
    ensures fault { IfErr result (IsFaultOf places.now) }
{
    let mut seats = vec![in alloc; None; usize::from(count)]?;
    for (second, place) in places.iter().enumerate() {
        let index = usize::from(place.index);
        if let Some(first) = seats[index] {
            return Err(FolderFault::Twice { first, second });
        }
        seats[index] = Some(second);
    }
    Ok(seats)
}
