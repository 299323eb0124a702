//! Laws of a crash of all devices, whatever the writers and scanners did, and of any number of crashes and starts.
//! Each law is the contract of a function that does nothing.
ghost use Rattle.snap_restart.specs.LifeLaws.{Lives, PhasesLaw, CutLaw, ConsistentLaw, InstantLaw, MomentLaw, ScanLaw};
ghost use Rattle.snap_restart.specs.{LifeDurability.StaysLaw, Restarts.AnyNumberLaw, Restarts.MadeLaw};
ghost use Rattle.snap_restart.specs.Restarts.{FirstLaw};

use snap_disk::Disk;

/// A writer's life keeps its device and its seat together: wherever a crash finds it, the crash
/// leaves the number and value shown last, or the next number with a value that was begun. Which of them it may be
/// the writer's seat says in the registers.
///
/// A stored value stays, over the writer's whole life and not only during a call: from the time at which the segment
/// had a number, a crash leaves that number with its value, or a later number with the value that the writer gave it.
/// So once an update was acknowledged with number k, which then is the segment's number, no later crash leaves less
/// than k, or k with another value.
pub fn life_laws<D: Disk>()
    ensures lives { Lives D.Disk }
    ensures phases { PhasesLaw D.Disk }
    ensures stays { StaysLaw D.Disk }
{}

/// Suppose that a crash of all devices finds each writer and each scanner of one opening at some
/// place in its life, and that nobody has seen an update that its writer hasn't shown. Then the
/// devices hold the memory after one list of updates, followed by at most one begun update of each
/// writer. That list begins with all that anybody had seen, and has each acknowledged update.
///
/// Both hold at any moment at which the registers keep their rule, and then the list is the whole history of that
/// moment, whatever files have what the phases of the writers' seats say. Each earlier result of a scan is the memory
/// after a beginning of it.
pub fn crash_laws<D: Disk>()
    ensures cut { CutLaw D.Disk }
    ensures consistent { ConsistentLaw D }
    ensures instant { InstantLaw }
    ensures moment { MomentLaw D.Disk }
    ensures scans { ScanLaw }
{}

/// Files that keep the memory of a start keep the memory after one history from then on, however
/// often they are opened and crash: at some moment of an opening's registers, during an opening, or
/// after a refusal. That history consists of the whole histories of all moments at which a crash
/// came, and before each of them at most one update of each segment that was begun and not shown.
///
/// Commands on the files may run in between. A `put` adds its update to the history, or may have begun it if a crash or
/// a fault cut it off; `get` and `check`, and `init`, `format`, `load` and `migrate` of files that are there, change
/// nothing. If a file was lost or removed, and one of these made it anew, its segment alone begins again, and the
/// others keep what they had. Files that were just made keep the memory with which they were made.
///
/// The premise of each next start is that a crash before its sync leaves only what the last crash
/// could leave. It holds because a crash leaves open places open.
pub fn restart_laws<D: Disk>()
    ensures any_number { AnyNumberLaw D.Disk }
    ensures made { MadeLaw D.Disk }
    ensures first { FirstLaw D.Disk }
{}
