//! Long lists of events, drawn from fixed seeds, whose memories are compared with the plain program.
use crate::draw::Draw;
use snap_disk::Fill;
use snap_history::{Update, memory_after};
use snap_scan::MAX_SEGMENTS;
use snap_world::{Actor, Event, PartEntry, Reply, SegmentSet, World};
use std::alloc::{AllocError, Global};
use std::process::Abort;
use std::test::Fail;

/// This many events, drawn from the seed. Scanners are slow, so that they see writers move.
fn events_of(
    alloc: Global,
    seed: u64,
    segments: usize,
    scanners: usize,
    count: usize,
) -> Result<Vec<Event>, AllocError> {
    let mut draw = Draw { state: seed };
    let mut events = Vec::new(alloc);
    for _ in 0..count {
        let segment = draw.below(segments);
        let scanner = draw.below(scanners);
        let byte = draw.below(256) as u8;
        let len = draw.below(4);
        events.push(match draw.below(41) {
            0 | 1 => Event::Begin(segment, [byte; 4][..len].to_vec(alloc)?),
            2..=8 => Event::Look(Actor::Writer(segment)),
            9..=15 => Event::Call(segment),
            16 | 17 => Event::Show(segment),
            18 | 19 => Event::Acknowledge(segment),
            20 => Event::Scan(scanner),
            21..=24 => Event::Look(Actor::Scanner(scanner)),
            25 => Event::Answer(scanner),
            26..=35 => Event::RestartCall,
            36 => Event::Restart,
            37 => Event::Serve,
            38 => Event::Pick(scanner, any_set(&mut draw)),
            _ => rare_event(alloc, &mut draw, segment, segments)?,
        })?;
    }
    Ok(events)
}

/// A fill that keeps, closes or opens the gates that it touches, or any other one.
fn any_fill(draw: &mut Draw) -> Fill {
    match draw.below(4) {
        0 => Fill::Keep,
        1 => Fill::All(0),
        2 => Fill::All(0xA5),
        _ => Fill::All(draw.below(256) as u8),
    }
}

/// Any set of the first three segments, the empty one too.
fn any_set(draw: &mut Draw) -> SegmentSet {
    SegmentSet {
        bits: draw.below(8) as u16,
    }
}

/// A fault or a crash.
fn rare_event(
    alloc: Global,
    draw: &mut Draw,
    segment: usize,
    segments: usize,
) -> Result<Event, AllocError> {
    match draw.below(50) {
        0..=9 => Ok(Event::Fail(segment, any_fill(draw))),
        10..=12 => Ok(Event::RestartFail(any_fill(draw))),
        13 | 14 => {
            let mut fills = Vec::new(alloc);
            for _ in 0..segments {
                fills.push(any_fill(draw))?;
            }
            Ok(Event::Crash(fills))
        }
        _ => Ok(Event::RestartCall),
    }
}

/// A scanner's scan: its set, unless it is of all segments, and how many updates were shown at its beginning and at its
/// last look.
#[derive(Clone, Copy, Drop)]
struct OpenScan {
    set: Option<SegmentSet>,
    start: usize,
    last: usize,
}

/// A plain model of the world, from the replies so far.
#[derive(Drop)]
struct Followed {
    segments: usize,
    /// The updates that were shown, or taken by a restart.
    history: Vec<Update>,
    /// The value of each writer's update that has begun and was not shown.
    begun: Vec<Option<Vec<u8>>>,
    scans: Vec<OpenScan>,
}

impl Followed {
    fn new(alloc: Global, segments: usize, scanners: usize) -> Result<Followed, AllocError> {
        let mut begun = Vec::new(alloc);
        for _ in 0..segments {
            begun.push(None)?;
        }
        Ok(Followed {
            segments,
            history: Vec::new(alloc),
            begun,
            scans: vec![in alloc; OpenScan {
                set: None,
                start: 0,
                last: 0
            }; scanners]?,
        })
    }

    /// A scan begins.
    fn open(&mut self, scanner: usize, set: Option<SegmentSet>) {
        let now = self.history.len();
        self.scans[scanner] = OpenScan {
            set,
            start: now,
            last: now,
        };
    }

    /// Takes in one event. `false` if its reply is a memory that there wasn't during the scan.
    fn agrees(&mut self, alloc: Global, event: &Event, reply: &Reply) -> Result<bool, AllocError> {
        match (event, reply) {
            (Event::Begin(segment, value), Reply::Begun) => {
                self.begun[*segment] = Some(value.to_vec(alloc)?);
            }
            (Event::Show(segment), Reply::Shown) => {
                if let Some(value) = self.begun[*segment].take() {
                    self.history.push(Update::new(*segment, value))?;
                }
            }
            (Event::Scan(scanner), Reply::ScanBegun) => self.open(*scanner, None),
            (Event::Pick(scanner, set), Reply::ScanBegun) => self.open(*scanner, Some(*set)),
            (Event::Look(Actor::Scanner(scanner)), Reply::Number(_)) => {
                self.scans[*scanner].last = self.history.len();
            }
            (Event::Answer(scanner), Reply::Memory(_) | Reply::Part(_)) => {
                return self.was(alloc, *scanner, reply);
            }
            (Event::Serve, Reply::Memory(memory)) => return self.served(alloc, memory),
            _ => {}
        }
        Ok(true)
    }

    /// Takes in the memory that a restart serves. `false` if it isn't the memory after the updates so far and some of
    /// the begun ones.
    fn served(&mut self, alloc: Global, memory: &Vec<Vec<u8>>) -> Result<bool, AllocError> {
        let before = memory_after(alloc, self.segments, &self.history)?;
        for (segment, value) in memory.iter().enumerate() {
            let begun = self.begun[segment].take();
            if before.get(segment) != Some(value) {
                match begun {
                    Some(new) if new == *value => {
                        self.history.push(Update::new(segment, new))?;
                    }
                    _ => return Ok(false),
                }
            }
        }
        Ok(memory_after(alloc, self.segments, &self.history)? == *memory)
    }

    /// Whether the reply shows the memory at a moment of the scanner's scan, by the plain program.
    fn was(&self, alloc: Global, scanner: usize, reply: &Reply) -> Result<bool, AllocError> {
        let scan = self.scans[scanner];
        for moment in scan.start..=scan.last {
            let memory = memory_after(alloc, self.segments, &self.history[..moment])?;
            if shows(alloc, &memory, scan.set, reply)? {
                return Ok(true);
            }
        }
        Ok(false)
    }
}

/// Whether the reply shows this memory: all of it or, to a scan of some segments, those.
fn shows(
    alloc: Global,
    memory: &Vec<Vec<u8>>,
    set: Option<SegmentSet>,
    reply: &Reply,
) -> Result<bool, AllocError> {
    match (set, reply) {
        (None, Reply::Memory(values)) => Ok(values == memory),
        (Some(set), Reply::Part(entries)) => Ok(*entries == part_of(alloc, memory, set)?),
        _ => Ok(false),
    }
}

/// The entries of this memory at the segments of the set, in ascending order.
fn part_of(
    alloc: Global,
    memory: &Vec<Vec<u8>>,
    set: SegmentSet,
) -> Result<Vec<PartEntry>, AllocError> {
    let mut part = Vec::new(alloc);
    for (segment, value) in memory.iter().enumerate() {
        if segment < MAX_SEGMENTS && set.has(segment) {
            part.push(PartEntry {
                segment,
                value: value.to_vec(alloc)?,
            })?;
        }
    }
    Ok(part)
}

#[test]
fn generated_runs(rt: HostRuntime) -> Result<(), Fail> {
    let alloc = rt.alloc();
    for (seed, segments, scanners) in [
        (1, 1, 1),
        (2, 2, 1),
        (3, 2, 3),
        (4, 4, 2),
        (5, 16, 1),
        (6, 3, 1),
        (7, 3, 2),
    ] {
        let events = events_of(alloc, seed, segments, scanners, 30_000)?;
        let replies = World::new(alloc, segments, scanners)?.run(&events)?;
        assert!(rt; replies.len() == events.len(), "seed {seed}");
        let mut followed = Followed::new(alloc, segments, scanners)?;
        let (mut memories, mut restarts) = (0, 0);
        for (event, reply) in events.iter().zip(replies.iter()) {
            let is_right = followed.agrees(alloc, event, reply)?;
            assert!(rt; is_right, "seed {seed}: {reply:?}");
            match (event, reply) {
                (Event::Serve, Reply::Memory(_)) => restarts += 1,
                (_, Reply::Memory(_)) => memories += 1,
                _ => {}
            }
        }
        assert!(rt; memories >= 10, "seed {seed}: {memories} memories");
        assert!(rt; restarts >= 20, "seed {seed}: {restarts} restarts");
        if segments == 3 {
            each_set_answers(&rt, &replies, seed);
        }
    }
    Ok(())
}

/// Each set of three segments had an answer with its segments.
fn each_set_answers(rt: &impl Abort, replies: &[Reply], seed: u64) {
    let mut answered = [false; 8];
    for reply in replies {
        if let Reply::Part(entries) = reply {
            let mut bits = 0;
            for entry in entries {
                bits |= 1_usize << entry.segment % 3;
            }
            answered[bits % 8] = true;
        }
    }
    for bits in 1..8 {
        assert!(rt; answered[bits], "seed {seed}: no answer of {bits:#b}");
    }
}
