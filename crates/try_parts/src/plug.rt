//! Cuts the power of all devices while threads update and scan, and checks what a crash leaves.
//!
//!     try_parts plug ROUNDS SEED
//!
//! A machine has four files in memory, four clients that update them and two scanners, each in a thread of its own. One
//! plug powers all devices. The call of a drawn number pulls it, before or after its own work: from then on each call
//! of each device fails and changes nothing, wherever the threads are. Then the files are crashed by drawn fills and
//! opened again, and checked: each segment has the last number that its client received or a scan showed, or the next
//! number if a call of its store was done, with the value of that number.
//!
//! In each round a second start follows the crash. It is interrupted within its opening or ends right after it, so that
//! one crash follows another. The files stay from round to round.
//!
//! The printed line is the same in every run. On standard error three more lines count where the threads were when the
//! plug was pulled, which no seed determines.
mod device;
mod pull;
mod recovery;
mod rounds;
mod run;
mod tally;
mod worker;

use rounds::pull_often;
use std::io;
use std::thread::Threads;

/// Runs this many rounds, from this seed.
pub(crate) fn pull_plug<X: Threads + Sync>(
    host: &X,
    rt: &HostRuntime,
    words: &[&str],
) -> io::Result<()> {
    let [rounds, seed] = words else {
        return Err(io::Error::other("wanted: plug ROUNDS SEED"));
    };
    let (Ok(rounds), Ok(seed)) = (rounds.parse(), seed.parse()) else {
        return Err(io::Error::other("ROUNDS and SEED are numbers"));
    };
    let tally = pull_often(host, rt.alloc(), rounds, seed)?;
    println!(rt; "{rounds} rounds from seed {seed}: each crash left what it may leave")?;
    tally.print(rt)
}
