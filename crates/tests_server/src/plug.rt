//! Servers that lose power while clients update and scan: what a client was told, or was shown, is there afterwards.
//!
//! A server has two files in memory, a client of each segment, and one that scans. One plug powers all files: the call
//! of a drawn number pulls it, before or after its own work, and from then on each call of each file fails and changes
//! nothing. With more workers than clients each worker has one client and stores itself; with fewer the storers do.
//! Then the files are crashed by drawn fills, and the next server opens them.

mod client;
mod device;

use crate::serve::rooms::{Ready, host_printing};
use crate::server::listen;
use crate::stores::new_files;
use client::{Part, Place};
use crossbeam_channel::{Receiver, Sender, unbounded};
use device::{Plug, Plugged};
use snap_devices::MemDisk;
use snap_disk::Fill;
use snap_server::NoGate;
use std::alloc::Global;
use std::net::Net;
use std::rt::Clock;
use std::sync::Wait;
use std::sync::atomic::AtomicU64;
use std::test::Fail;
use std::thread::{Threads, for_each_mut, join};

const SEGMENTS: usize = 2;

/// One updates each segment, and one scans.
const CLIENTS: usize = SEGMENTS + 1;

/// How often each test pulls the plug.
const ROUNDS: u64 = 3_400;

/// How many calls the opening of all files makes, and after how many more the plug is pulled at most.
const OPENING: u64 = 2 * SEGMENTS as u64;

const CALLS: u64 = 60;

/// A number for each segment.
type Numbers = [u64; SEGMENTS];

/// Numbers that look random: xorshift64.
#[derive(Drop)]
struct Draw {
    state: u64,
}

impl Draw {
    fn below(&mut self, most: u64) -> u64 {
        self.state ^= self.state << 13;
        self.state ^= self.state >> 7;
        self.state ^= self.state << 17;
        self.state % most
    }

    /// What a crash leaves at the open places of a file: what was there, or closed gates, open ones or others.
    fn fill(&mut self) -> Fill {
        match self.below(4) {
            0 => Fill::Keep,
            1 => Fill::All(0x00),
            2 => Fill::All(0xA5),
            _ => Fill::All(self.below(256) as u8),
        }
    }
}

/// The files of a server behind this plug.
fn plugged<'a, R: Wait + Copy>(
    rt: R,
    alloc: Global,
    disks: Vec<MemDisk>,
    plug: &'a Plug,
    done: &'a [AtomicU64],
    home: Sender<(usize, MemDisk)>,
) -> Result<Vec<Plugged<'a, R>>, Fail> {
    let mut devices = Vec::new(alloc);
    for disk in disks {
        let segment = devices.len();
        devices.push(Plugged {
            rt,
            disk,
            plug,
            done: &done[segment],
            failures: 0,
            home: home.clone()?,
            segment,
        })?;
    }
    Ok(devices)
}

/// The clients of a server whose segments have such numbers at first, and last the one that scans.
fn parts<'a>(
    alloc: Global,
    plug: &'a Plug,
    done: &'a [AtomicU64],
    least: Numbers,
    most: Numbers,
) -> Result<Vec<Part<'a>>, Fail> {
    let mut parts = Vec::new(alloc);
    for segment in 0..CLIENTS {
        parts.push(Part {
            plug,
            done: done.get(segment),
            segment,
            least,
            most,
            place: Place::AtRest,
            is_right: true,
        })?;
    }
    Ok(parts)
}

/// What may come back of each segment, and how often a writer was at each place when the plug was pulled.
#[derive(Drop)]
struct Course {
    draw: Draw,
    least: Numbers,
    most: Numbers,
    /// Whether each answer was one that may come.
    is_right: bool,
    at_rest: u64,
    in_store: u64,
    before_answer: u64,
}

impl Course {
    /// Takes what the clients of a server know at its end.
    fn take(&mut self, parts: &[Part<'_>]) {
        self.is_right &= parts.iter().all(|part| part.is_right);
        let shown = parts[SEGMENTS].least;
        for (segment, part) in parts[..SEGMENTS].iter().enumerate() {
            let told = part.least[segment];
            self.is_right &= shown[segment] <= told;
            self.least[segment] = told;
            self.most[segment] = told + u64::from(part.place == Place::InStore);
            match part.place {
                Place::AtRest => self.at_rest += 1,
                Place::InStore => self.in_store += 1,
                Place::BeforeAnswer => self.before_answer += 1,
            }
        }
    }
}

/// The files that went home, crashed, in order.
fn crashed<R: Wait>(
    rt: &R,
    alloc: Global,
    back: &Receiver<(usize, MemDisk)>,
    draw: &mut Draw,
) -> Result<Vec<MemDisk>, Fail> {
    let mut found: Vec<Option<MemDisk>> = Vec::new(alloc);
    for _ in 0..SEGMENTS {
        found.push(None)?;
    }
    while let Ok((segment, mut disk)) = back.try_recv(rt) {
        disk.crash(&draw.fill());
        found[segment] = Some(disk);
    }
    let mut disks = Vec::new(alloc);
    for disk in found {
        if let Some(disk) = disk {
            disks.push(disk)?;
        }
    }
    Ok(disks)
}

/// Serves until the plug is pulled, and takes what the clients know then. Returns the crashed files.
fn serve<X>(
    host: &X,
    rt: &HostRuntime,
    disks: Vec<MemDisk>,
    workers: u8,
    course: &mut Course,
) -> Result<Vec<MemDisk>, Fail>
where
    X: Threads + Wait + Clock + Net + Sync + Send + Copy,
{
    let (alloc, draw) = (rt.alloc(), &mut course.draw);
    let plug = Plug::new(OPENING + 1 + draw.below(CALLS), draw.below(2) == 1);
    let done = [AtomicU64::new(0), AtomicU64::new(0)];
    let (home, back) = unbounded(alloc)?;
    let (tcp, address) = listen(rt)?;
    let devices = plugged(*host, alloc, disks, &plug, &done, home)?;
    let mut clients = parts(alloc, &plug, &done, course.least, course.most)?;
    let (bind, asking) = (&Ready::new(&tcp, address), &mut clients);
    let (seen, ()) = join(
        host,
        move || {
            let seen = host_printing(host, alloc, devices, bind, workers, CLIENTS as u64, &NoGate);
            // Who still waits for a server that ended early waits in vain.
            bind.close();
            seen
        },
        move || for_each_mut(host, asking, CLIENTS, &|_, client| client.work(rt, address)),
    );
    course.is_right &= seen?.errors.is_empty();
    course.take(&clients);
    crashed(host, alloc, &back, &mut course.draw)
}

/// Whether servers with so many workers kept what they had told, and the plug found a writer at each place.
fn keep_what_they_told<X>(host: &X, rt: &HostRuntime, workers: u8) -> Result<bool, Fail>
where
    X: Threads + Wait + Clock + Net + Sync + Send + Copy,
{
    let mut disks = new_files(rt.alloc(), SEGMENTS as u8)?;
    let mut course = Course {
        draw: Draw { state: 7 },
        least: [0; SEGMENTS],
        most: [0; SEGMENTS],
        is_right: true,
        at_rest: 0,
        in_store: 0,
        before_answer: 0,
    };
    for _ in 0..ROUNDS {
        disks = serve(host, rt, disks, workers, &mut course)?;
        if !course.is_right || disks.len() != SEGMENTS {
            return Ok(false);
        }
    }
    Ok(course.at_rest > 0 && course.in_store > 0 && course.before_answer > 0)
}

#[test]
fn storers_keep_what_they_told(rt: HostRuntime) -> Result<(), Fail> {
    assert!(rt; keep_what_they_told(&rt, &rt, 1)?);
    Ok(())
}

#[test]
fn storers_of_two_workers_keep_what_they_told(rt: HostRuntime) -> Result<(), Fail> {
    assert!(rt; keep_what_they_told(&rt, &rt, 2)?);
    Ok(())
}

#[test]
fn workers_that_store_themselves_keep_what_they_told(rt: HostRuntime) -> Result<(), Fail> {
    assert!(rt; keep_what_they_told(&rt, &rt, 4)?);
    Ok(())
}
