//! Calls on devices that return random bytes.
use crate::sweeps::migration::migrate_words;
use crate::sweeps::recovery::{found, one_line};
use snap_devices::{MemDisk, Noise};
use snap_segment::{OLD_FILE_LEN, Segment, check, format};
use snap_slot::FILE_LEN;
use std::alloc::Global;
use std::io;
use std::string::String;

/// The result of each call on devices whose bytes are drawn from this seed on, in words.
pub(crate) fn noise_row(alloc: Global, seed: u64) -> io::Result<String> {
    let (opened, formatted) = (open_name(alloc, seed), format_name(seed));
    let all = all_words(alloc, seed)?;
    let findings = check_words(alloc, seed)?;
    let from = from_words(alloc, seed)?;
    Ok(format!(in alloc; "{opened}, {all}, {findings}, {formatted}, {from}")?)
}

fn open_name(alloc: Global, seed: u64) -> &'static str {
    match Segment::open(alloc, Noise::new(FILE_LEN, seed), 0, 3) {
        Ok(_) => "opened",
        Err((why, _)) => why.name(),
    }
}

fn format_name(seed: u64) -> &'static str {
    match format(&mut Noise::new(FILE_LEN, seed), 0, 3) {
        Ok(()) => "formatted",
        Err(why) => why.name(),
    }
}

fn all_words(alloc: Global, seed: u64) -> io::Result<String> {
    let mut devices = Vec::new(alloc);
    for index in 0..3u64 {
        devices.push(Noise::new(FILE_LEN, seed.wrapping_add(index)))?;
    }
    let (words, _) = found(alloc, devices)?;
    Ok(words)
}

/// The findings, in one line.
fn check_words(alloc: Global, seed: u64) -> io::Result<String> {
    match check(&mut Noise::new(FILE_LEN, seed)) {
        Ok(findings) => one_line(alloc, format!(in alloc; "{findings}")?.as_str()),
        Err(why) => Ok(format!(in alloc; "{}", why.name())?),
    }
}

/// From random bytes to a device of zeros.
fn from_words(alloc: Global, seed: u64) -> io::Result<String> {
    let mut old = Noise::new(OLD_FILE_LEN, seed);
    let mut new = MemDisk::zeroed(alloc, FILE_LEN as usize)?;
    migrate_words(alloc, &mut old, &mut new, 3)
}
