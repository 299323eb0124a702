//! Bytes and texts of the format, as docs/FORMATS.md gives them.
use crate::checks::{Host, are, prints};
use snap_disk::Refusal;
use snap_slot::{
    Found, Header, MARK, Slot, SlotFault, encode_body, encode_fresh_file, encode_header,
    encode_slots, inspect, read_header, read_slot, recover,
};
use std::alloc::AllocError;

fn body_of(number: u32) -> [u8; 4096] {
    let mut body = [0xFF; 4096];
    encode_body(number.into(), b"hi", &mut body);
    body
}

/// The file of segment 0 of 1 with a gate and a number for each slot. All values are `hi`.
fn file_of(slots: [(u8, u32); 3]) -> [u8; 28672] {
    let mut file = [0; 28672];
    let mut front = [0; 4095];
    encode_header(0, 1, &mut front);
    file[..4095].copy_from_slice(&front);
    file[4095] = 0xA5;
    for (slot, (gate, number)) in slots.into_iter().enumerate() {
        let at = 4096 + slot * 8192;
        file[at] = gate;
        file[at + 4096..at + 8192].copy_from_slice(&body_of(number));
    }
    file
}

fn are_zero(rt: &impl Host, bytes: &[u8]) {
    assert!(rt; bytes.iter().all(|&byte| byte == 0));
}

/// The header of segment 1 of 2.
const WORDS: [u8; 10] = [0x53, 0x4E, 0x41, 0x50, 0x53, 0x45, 0x47, 0x32, 0x01, 0x02];

#[test]
fn segment_file_vectors(rt: HostRuntime) {
    let mut front = [0xFF; 4095];
    encode_header(1, 2, &mut front);
    are(&rt, &front[..10], &WORDS);
    are_zero(&rt, &front[10..]);

    let body = body_of(1);
    let fields = [0, 0, 0, 0, 0, 0, 0, 1, 0, 0, 0, 2, 0, 0, 0, 0, 0x68, 0x69];
    are(&rt, &body[..18], &fields);
    are_zero(&rt, &body[18..]);

    let mut file = [0xFF; 28672];
    encode_fresh_file(1, 2, &mut file);
    are(&rt, &file[..10], &WORDS);
    are_zero(&rt, &file[10..4095]);
    are(&rt, &file[4095..4097], &[0xA5, 0xA5]);
    are_zero(&rt, &file[4097..]);
}

#[test]
fn slots_of_one_number(rt: HostRuntime) {
    let mut slots = [0xFF; 24576];
    encode_slots(1, b"hi", &mut slots);
    let mut want = [0; 24576];
    want[8192] = 0xA5;
    want[12288..16384].copy_from_slice(&body_of(1));
    are(&rt, &slots, &want);
}

/// The header of segment 1 of 2 once a byte is changed.
fn changed(at: usize, byte: u8) -> Header {
    let mut block = [0; 4096];
    let mut front = [0; 4095];
    encode_header(1, 2, &mut front);
    block[..4095].copy_from_slice(&front);
    block[4095] = 0xA5;
    block[at] = byte;
    read_header(&MARK, &block)
}

/// A byte of the header, what it is changed to, and what the header is then.
const HEADERS: [(usize, u8, Header); 9] = [
    (0, 0x53, Header::Open { index: 1, count: 2 }),
    (4095, 0xA4, Header::Closed),
    (
        9,
        16,
        Header::Open {
            index: 1,
            count: 16,
        },
    ),
    (7, 0x31, Header::Wrong),
    (8, 2, Header::Wrong),
    (9, 1, Header::Wrong),
    (9, 17, Header::Wrong),
    (10, 1, Header::Wrong),
    (4094, 1, Header::Wrong),
];

#[test]
fn headers(rt: HostRuntime) {
    for (at, byte, want) in &HEADERS {
        assert!(rt; changed(*at, *byte) == *want, "byte {at} is {byte}");
    }
}

/// The reading of slot 1 with number 1 and `hi` once these bytes are changed, those of the body from 4,096 on.
fn is_slot(rt: &impl Host, changes: &[(usize, u8)], want: Slot) {
    let mut gate = [0; 4096];
    gate[0] = 0xA5;
    let mut body = body_of(1);
    for &(at, byte) in changes {
        if at < 4096 {
            gate[at] = byte;
        } else {
            body[at - 4096] = byte;
        }
    }
    assert_eq!(rt; read_slot(3, 1, &gate, &body), want, "{changes:?}");
}

/// Changes of one byte or two, and the first flaw of the slot then.
const FLAWS: [(&[(usize, u8)], SlotFault); 11] = [
    (&[(1, 1)], SlotFault::Gate),
    (&[(0, 0), (4095, 1)], SlotFault::Gate),
    (&[(4106, 0x0F), (4107, 0xF1)], SlotFault::Length),
    (&[(4104, 1), (4108, 1)], SlotFault::Length),
    (&[(4108, 1)], SlotFault::Zeros),
    (&[(4111, 1), (4103, 2)], SlotFault::Zeros),
    (&[(4114, 1)], SlotFault::Zeros),
    (&[(8191, 1)], SlotFault::Zeros),
    (&[(4096, 0x80)], SlotFault::Number),
    (&[(4103, 2)], SlotFault::Number),
    (&[(4103, 3)], SlotFault::Number),
];

#[test]
fn flaws_in_their_order(rt: HostRuntime) {
    let (number, length) = (1, 2);
    is_slot(&rt, &[], Slot::Open { number, length });
    is_slot(&rt, &[(0, 0)], Slot::Closed);
    is_slot(&rt, &[(0, 0xA4), (4096, 0xFF)], Slot::Closed);
    for (changes, flaw) in &FLAWS {
        is_slot(&rt, changes, Slot::Bad(*flaw));
    }
}

#[test]
fn largest_number_and_longest_value(rt: HostRuntime) {
    let value = [0xFF; 4080];
    let mut body = [0; 4096];
    encode_body((1 << 63) - 1, &value, &mut body);
    let mut gate = [0; 4096];
    gate[0] = 0xA5;
    let want = Slot::Open {
        number: 9_223_372_036_854_775_807,
        length: 4080,
    };
    assert!(rt; read_slot(3, 1, &gate, &body) == want);
    are(&rt, &body[16..], &value);
}

/// The result of opening a file with these slots. All values are `hi`.
fn recovers(rt: &impl Host, slots: [(u8, u32); 3], want: Result<Found, Refusal>) {
    let file = file_of(slots);
    let answer = recover(&file, 0, 1);
    assert_eq!(rt; answer, want, "{slots:?}");
    if let Ok(found) = answer {
        are(rt, found.value(&file), b"hi");
    }
}

#[test]
fn damaged_three_slots(rt: HostRuntime) {
    for slots in [
        [(0xA5, 6), (0xA5, 4), (0, 5)],
        [(0xA5, 3), (0xA5, 4), (0xA5, 5)],
        [(0xA5, 4), (0, 4), (0, 5)],
        [(0, 3), (0, 4), (0, 5)],
        [(0xA5, 3), (0, 4), (0xA5, 5)],
        [(0xA5, 0), (0, 1), (0xA5, 2)],
    ] {
        recovers(&rt, slots, Err(Refusal::Damaged));
    }
    for (slots, number, spare_open) in [
        ([(0xA5, 3), (0, 4), (0, 5)], 3, false),
        ([(0, 3), (0xA5, 4), (0, 5)], 4, false),
        ([(0, 3), (0, 4), (0xA5, 5)], 5, false),
        ([(0xA5, 3), (0, 1), (0xA5, 2)], 3, true),
        ([(0xA5, 3), (0xA5, 4), (0, 5)], 4, true),
        ([(0, 3), (0xA5, 4), (0xA5, 5)], 5, true),
    ] {
        let length = 2;
        recovers(
            &rt,
            slots,
            Ok(Found {
                number,
                length,
                spare_open,
            }),
        );
    }
    let mut file = file_of([(0xA5, 0), (0, 1), (0, 2)]);
    assert!(rt; recover(&file, 0, 2) == Err(Refusal::WrongFile));
    file[0] = 0;
    assert!(rt; recover(&file, 0, 1) == Err(Refusal::WrongFile));
    file[4095] = 0;
    assert!(rt; recover(&file, 0, 1) == Err(Refusal::Unformatted));
}

/// Changes of a file, one after the other, and what is printed of it after each.
const FINDINGS: [(&[(usize, u8)], &str); 5] = [
    (
        &[],
        "header index 0 count 1\nslot 0 open number 0 length 0\n\
slot 1 open number 1 length 2\nslot 2 closed\nanswer number 1\n",
    ),
    (
        &[(4096, 0), (12288, 0)],
        "header index 0 count 1\nslot 0 closed\nslot 1 closed\nslot 2 closed\nanswer none\n",
    ),
    (
        &[(20481, 1)],
        "header index 0 count 1\nslot 0 closed\nslot 1 closed\nslot 2 bad gate\nanswer none\n",
    ),
    (&[(4094, 1)], "header wrong\n"),
    (&[(4095, 0)], "header unformatted\n"),
];

#[test]
fn printed_findings(rt: HostRuntime) -> Result<(), AllocError> {
    let mut file = file_of([(0xA5, 0), (0xA5, 1), (0, 2)]);
    let mut empty = [0; 4096];
    encode_body(0, b"", &mut empty);
    file[8192..12288].copy_from_slice(&empty);
    for (changes, text) in &FINDINGS {
        for (at, byte) in changes.iter() {
            file[*at] = *byte;
        }
        prints(&rt, &inspect(&file), text)?;
    }
    for (flaw, name) in [
        (SlotFault::Gate, "gate"),
        (SlotFault::Length, "length"),
        (SlotFault::Zeros, "zeros"),
        (SlotFault::Number, "number"),
    ] {
        prints(&rt, &flaw, name)?;
    }
    Ok(())
}
