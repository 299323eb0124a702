//! Stores many values in one process, which `make bench` times against the bare system calls.
//!
//!     try_bench store FILE COUNT
//!
//! makes and formats FILE, stores COUNT values of 1,000 bytes and prints the last number.
use snap_devices::FileDisk;
use snap_disk::Refusal;
use snap_segment::{Segment, format};
use std::io;

/// Makes and formats the file, and stores that many values.
fn store_often(rt: &HostRuntime, file: &str, count: u64) -> Result<u64, Refusal> {
    let Ok(mut disk) = FileDisk::create(rt, file) else {
        return Err(Refusal::WrongFile);
    };
    format(&mut disk, 0, 1)?;
    let mut segment = match Segment::open(rt.alloc(), disk, 0, 1) {
        Ok(segment) => segment,
        Err((why, _)) => return Err(why),
    };
    let value = [7u8; 1000];
    for _ in 0..count {
        segment.store(&value)?;
    }
    Ok(segment.number())
}

pub(crate) fn measure_stores(rt: &HostRuntime, words: &[&str]) -> io::Result<()> {
    let [file, count] = words else {
        return Err(io::Error::other("wanted: store FILE COUNT"));
    };
    let Ok(count) = count.parse::<u64>() else {
        return Err(io::Error::other("COUNT is a number"));
    };
    match store_often(rt, file, count) {
        Ok(number) => println!(rt; "stored {number}"),
        Err(_) => Err(io::Error::other("the file or a store was refused")),
    }
}
