//! Runs rounds of events on one world.
//!
//!     try_bench world SEGMENTS ROUNDS LENGTH
//!
//! has in each round each writer make an update of LENGTH bytes whole, device calls included, and
//! then a scanner scan. It prints how many events were done.
ghost use Rattle.std.specs.Prelude.{◌<◌, ◌≤◌};

use snap_world::{Actor, Event, World};
use std::alloc::{AllocError, Global};
use std::io;

/// The events of one round. A store whose spare gate is closed has one call fewer, which comes as an
/// event that may not.
fn round(alloc: Global, segments: usize, length: usize) -> Result<Vec<Event>, AllocError>
    requires { segments ≤ 16 }
{
    let mut events = Vec::new(alloc);
    for writer in 0..segments {
        events.push(Event::Begin(writer, vec![in alloc; 7u8; length]?))?;
        for _ in 0..2 * segments {
            events.push(Event::Look(Actor::Writer(writer)))?;
        }
        for _ in 0..5 {
            events.push(Event::Call(writer))?;
        }
        events.push(Event::Show(writer))?;
        events.push(Event::Acknowledge(writer))?;
    }
    events.push(Event::Scan(0))?;
    for _ in 0..2 * segments {
        events.push(Event::Look(Actor::Scanner(0)))?;
    }
    events.push(Event::Answer(0))?;
    Ok(events)
}

/// Does the rounds, and counts their events.
fn run_rounds(alloc: Global, segments: usize, rounds: u64, length: usize) -> Result<u64, AllocError>
    requires least { 0 < segments }
    requires most { segments ≤ 16 }
{
    let mut world = World::new(alloc, segments, 1)?;
    let events = round(alloc, segments, length)?;
    let mut done: u64 = 0;
    for _ in 0..rounds {
        match world.run(&events) {
            Ok(replies) => done = done.saturating_add(replies.len() as u64),
            Err(_) => return Err(AllocError),
        }
    }
    Ok(done)
}

pub(crate) fn measure_events(rt: &HostRuntime, words: &[&str]) -> io::Result<()> {
    let [segments, rounds, length] = words else {
        return Err(io::Error::other("wanted: world SEGMENTS ROUNDS LENGTH"));
    };
    let (Ok(segments), Ok(rounds), Ok(length)) = (
        segments.parse::<usize>(),
        rounds.parse::<u64>(),
        length.parse::<usize>(),
    ) else {
        return Err(io::Error::other("SEGMENTS, ROUNDS and LENGTH are numbers"));
    };
    if segments == 0 || segments > 16 {
        return Err(io::Error::other("SEGMENTS is from 1 to 16"));
    }
    let done = run_rounds(rt.alloc(), segments, rounds, length)?;
    println!(rt; "{done}")
}
