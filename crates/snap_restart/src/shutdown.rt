//! Collects all writers and scanners of a memory when it closes.
//!
//! What they have seen is one history, proved by meetings: a scanner meets each writer, then each
//! once more. After the first round it has seen all that any of them had seen. The second round
//! shows that it had seen no update that its writer hadn't shown.
ghost use Rattle.std.specs.Prelude.{◌≡◌, ℕ, ◌++◌, ◌<◌, ◌≤◌, List, [], length, map, slice_get, Some, vec_capacity};
ghost use Rattle.snap_history.specs.{History.Update, History.IsBeginning, Pairs.Pairs};
ghost use Rattle.snap_register.specs.Seat.{AreTogether, Grows};
ghost use Rattle.snap_restart.specs.Closed.{AreBack, IsHistory, IsTold, HasMet, Rests};

use crate::files::keep;
use snap_disk::Disk;
use snap_memory::Scanner;
use snap_writer::Writer;

/// Proves what all of them have seen: beginnings of one history. The files don't change.
pub(crate) fn hear_everybody<D: Disk>(writers: &mut Vec<Writer<D>>, scanners: &mut Vec<Scanner>)
    requires back { AreBack writers.old.items scanners.old.items }
    ensures met { Pairs (λ _. HasMet) writers.old.items writers.new.items }
    ensures history { (h : List Update) × IsHistory h writers.old.items scanners.old.items }
{
    hear_all(&mut writers[0], scanners);
    let scanner = &mut scanners[0];
    meet_all(writers, scanner);
    meet_all(writers, scanner);
}

// The writer meets all scanners.
fn hear_all<D: Disk>(writer: &mut Writer<D>, scanners: &mut Vec<Scanner>)
    requires together { (k : ℕ) (b : _) → slice_get scanners.old.items k ≡ Some b → AreTogether b writer.old.seat }
    ensures writer { HasMet writer.old writer.new }
    ensures scanners { Pairs (λ _. Grows) scanners.old.items scanners.new.items }
    ensures heard { (k : ℕ) (b : _) → slice_get scanners.old.items k ≡ Some b
        → IsBeginning b.seen writer.new.seat.seen }
{
    for k in 0..scanners.len() {
        writer.meet(&mut scanners[k]);
    }
}

// The scanner meets all writers, in order.
fn meet_all<D: Disk>(writers: &mut Vec<Writer<D>>, scanner: &mut Scanner)
    requires together { (i : ℕ) (w : _) → slice_get writers.old.items i ≡ Some w → AreTogether scanner.old w.seat }
    ensures writers { Pairs (λ _. HasMet) writers.old.items writers.new.items }
    ensures scanner { Grows scanner.old scanner.new }
    ensures told { (i : ℕ) (w : _) → slice_get writers.old.items i ≡ Some w → IsTold w.seat scanner.old scanner.new }
{
    for i in 0..writers.len() {
        writers[i].meet(scanner);
    }
}

/// Puts the devices of the writers into `devices`, in order.
pub(crate) fn release_all<D: Disk + Drop>(writers: Vec<Writer<D>>, mut devices: Vec<D>) -> Vec<D>
    requires empty { devices.items ≡ [] }
    requires room { length writers.items ≤ vec_capacity devices }
    ensures devices { result.items ≡ map (λ w. w.segment.device) writers.items }
    ensures rests { (i : ℕ) (w : _) → slice_get writers.items i ≡ Some w → Rests D.Disk w }
{
    'writers: for writer in writers {
        keep(&mut devices, writer.into_segment().into_device());
    }
    devices
}
