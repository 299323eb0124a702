//! Three writers and two scanners in threads of their own. The values that the scanners found are checked afterwards,
//! without any knowledge of the registers.
use crate::register::word_in;
use crate::seats::open;
use snap_history::MAX_VALUE_LEN;
use snap_register::{Looker, Parts, ReadSeat, View, WriteSeat};
use std::test::Fail;
use std::thread::{for_each_mut, join};

const SEGMENTS: usize = 3;

const SCANNERS: usize = 2;

const UPDATES: u64 = 200;

const ROUNDS: usize = 400;

/// More collects than the other writers' updates can spoil.
const TRIES: u64 = 1000;

/// The segment and the number of a look, and the number in the value, if it has one.
#[derive(Clone, Copy, PartialEq)]
struct Found {
    segment: usize,
    number: u64,
    word: Option<u64>,
}

/// A writer's seat, and the number of its last update.
#[derive(Drop)]
struct Writing {
    seat: WriteSeat,
    last: u64,
}

/// A scanner's seat, and what it found.
#[derive(Drop)]
struct Looking {
    seat: ReadSeat,
    record: Vec<Found>,
}

/// Two looks at each register. Whether no number changed in between.
fn is_collected(writer: &mut WriteSeat) -> bool {
    let a = [writer.look(0), writer.look(1), writer.look(2)];
    a == [writer.look(0), writer.look(1), writer.look(2)]
}

/// The number in the value of this update.
fn word_of_update(segment: usize, number: u64) -> u64 {
    number * 4 + segment as u64
}

impl Writing {
    /// Shows all updates as values of eight bytes, each after a clean collect.
    fn write_all(&mut self) {
        for number in 1..=UPDATES {
            for _ in 0..TRIES {
                if is_collected(&mut self.seat) {
                    let word = word_of_update(self.seat.segment(), number);
                    self.seat.begin_store();
                    self.seat.end_store();
                    self.last = self.seat.publish(&word.to_be_bytes(), &View::Collected);
                    break;
                }
            }
        }
    }
}

impl Looking {
    fn find(&mut self, segment: usize) -> Found {
        let number = self.seat.look(segment);
        let mut room = [0; MAX_VALUE_LEN];
        let length = self.seat.value(segment, &mut room);
        let word = word_in(&room[..length]);
        Found {
            segment,
            number,
            word,
        }
    }

    /// Records what all rounds of looks find, as long as memory lasts.
    fn find_all(&mut self) {
        for look in 0..ROUNDS * SEGMENTS {
            let found = self.find(look % SEGMENTS);
            let _ = self.record.push(found);
        }
    }
}

/// Whether each number is at least the one found before, and each value the one of its number.
fn is_sound(record: &[Found]) -> bool {
    let mut last = [0u64; SEGMENTS];
    for found in record {
        let right = (found.number > 0).then_some(word_of_update(found.segment, found.number));
        if found.number > UPDATES || found.word != right || found.number < last[found.segment] {
            return false;
        }
        last[found.segment] = found.number;
    }
    record.len() == ROUNDS * SEGMENTS
}

#[test]
fn three_writers_and_two_scanners_in_threads(rt: HostRuntime) -> Result<(), Fail> {
    let Parts { writers, scanners } = open(rt.alloc(), SEGMENTS, SCANNERS, 1_000_000)?;
    let mut writings = Vec::new(rt.alloc());
    for seat in writers {
        writings.push(Writing { seat, last: 0 })?;
    }
    let mut lookings = Vec::new(rt.alloc());
    for seat in scanners {
        let record = Vec::new(rt.alloc());
        lookings.push(Looking { seat, record })?;
    }
    let (all, both) = (writings.as_mut_slice(), lookings.as_mut_slice());
    join(
        &rt,
        || for_each_mut(&rt, all, SEGMENTS, &|_, writing| writing.write_all()),
        || for_each_mut(&rt, both, SCANNERS, &|_, looking| looking.find_all()),
    );
    for writing in &writings {
        assert!(rt; writing.last == UPDATES);
    }
    for looking in &mut lookings {
        assert!(rt; is_sound(looking.record.as_slice()));
        for segment in 0..SEGMENTS {
            let word = Some(word_of_update(segment, UPDATES));
            let number = UPDATES;
            assert!(rt;
                looking.find(segment)
                    == Found {
                        segment,
                        number,
                        word
                    }
            );
        }
    }
    Ok(())
}
