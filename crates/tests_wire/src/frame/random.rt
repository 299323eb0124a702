//! Random bytes in random pieces, compared with a plain parser that reads one byte after the other.

use super::comes;
use super::messages::{Answer, update};
use crate::streams::Host;
use snap_disk::Refusal;
use snap_frame::{Feed, Request, SegmentSet};
use std::alloc::{AllocError, Global};
use std::test::Fail;

/// Numbers that look random, the same for each run: a linear congruential generator.
#[derive(Drop)]
struct Random {
    state: u64,
}

impl Random {
    fn byte(&mut self) -> u8 {
        self.state = self
            .state
            .wrapping_mul(6_364_136_223_846_793_005)
            .wrapping_add(1_442_695_040_888_963_407);
        let bytes = self.state.to_be_bytes();
        bytes[0]
    }
}

/// The frame that the last byte ended, if it ended one.
#[derive(Debug, Drop)]
enum Said {
    Nothing,
    Frame(Vec<u8>),
    TooLarge,
}

/// The bytes of the frame that isn't whole yet: its length, and its payload.
#[derive(Drop)]
struct PlainParser {
    head: Vec<u8>,
    payload: Vec<u8>,
}

impl PlainParser {
    fn new(alloc: Global) -> PlainParser {
        PlainParser {
            head: Vec::new(alloc),
            payload: Vec::new(alloc),
        }
    }

    fn take(&mut self, alloc: Global, byte: u8) -> Result<Said, AllocError> {
        if self.head.len() < 4 {
            self.head.push(byte)?;
        } else {
            self.payload.push(byte)?;
        }
        let mut len: u64 = 0;
        for digit in &self.head {
            len = u64::wrapping_add(len << 8, u64::from(*digit));
        }
        if self.head.len() < 4 {
            return Ok(Said::Nothing);
        }
        if len > 66_000 {
            return Ok(Said::TooLarge);
        }
        if (self.payload.len() as u64) < len {
            return Ok(Said::Nothing);
        }
        self.head.clear();
        let mut payload = Vec::new(alloc);
        payload.extend_from_slice(&self.payload)?;
        self.payload.clear();
        Ok(Said::Frame(payload))
    }
}

/// The answer that a feed has to give to a payload.
fn answer_to(alloc: Global, payload: &[u8]) -> Result<Answer, AllocError> {
    match payload {
        [2] => Ok(Ok(Some(Request::Scan))),
        [3] => Ok(Ok(Some(Request::Status))),
        [4, 0, 0] => Ok(Err(Refusal::Malformed)),
        [4, high, low] => {
            let bits = u16::from_be_bytes([*high, *low]);
            Ok(Ok(Some(Request::Part(SegmentSet { bits }))))
        }
        [1, segment, a, b, c, d, e, f, g, h, value @ ..] => {
            let number = u64::from_be_bytes([*a, *b, *c, *d, *e, *f, *g, *h]);
            update(alloc, *segment, number, value)
        }
        _ => Ok(Err(Refusal::Malformed)),
    }
}

/// Some frames with random payloads, rarely with a random length.
fn random_stream(alloc: Global, random: &mut Random) -> Result<Vec<u8>, AllocError> {
    let mut stream = Vec::new(alloc);
    for _ in 0..62 {
        let len = random.byte() % 25;
        if random.byte() == 0 {
            stream.extend_from_slice(&[random.byte(), random.byte()])?;
        }
        stream.extend_from_slice(&[0, 0, 0, len])?;
        for at in 0..len {
            let byte = random.byte();
            stream.push(if at == 0 { byte % 5 } else { byte })?;
        }
    }
    Ok(stream)
}

#[test]
fn a_million_random_bytes(rt: HostRuntime) -> Result<(), Fail> {
    let alloc = rt.alloc();
    let mut random = Random { state: 2026 };
    for _ in 0..1000 {
        let stream = random_stream(alloc, &mut random)?;
        expect_same(&rt, alloc, &mut random, &stream)?;
    }
    Ok(())
}

/// The feed, which gets the stream in random pieces, answers what the plain parser reads in each piece.
fn expect_same(
    rt: &impl Host,
    alloc: Global,
    random: &mut Random,
    stream: &[u8],
) -> Result<(), Fail> {
    let (mut feed, mut plain) = (Feed::new(alloc), PlainParser::new(alloc));
    let mut start = 0;
    for end in 1..=stream.len() {
        if random.byte() > 12 {
            continue;
        }
        feed.push(&stream[start..end])?;
        for byte in &stream[start..end] {
            match plain.take(alloc, *byte)? {
                Said::Nothing => {}
                Said::Frame(payload) => comes(rt, &mut feed, &answer_to(alloc, &payload)?),
                Said::TooLarge => {
                    comes(rt, &mut feed, &Err(Refusal::TooLarge));
                    return Ok(());
                }
            }
        }
        comes(rt, &mut feed, &Ok(None));
        start = end;
    }
    Ok(())
}
