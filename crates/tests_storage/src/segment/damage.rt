//! Files that have no answer, or are of another segment.
use crate::devices::{
    GATE_0, GATE_1, GATE_2, HEADER, HEADER_GATE, Part, device, finds, is_refused, made,
};
use snap_devices::MemDisk;
use snap_disk::{Disk, Refusal};
use snap_segment::{check, format};
use std::test::Fail;

/// Parts of a file beside its header, and what a check prints of the slots, which give no answer.
const DAMAGED: [(&[Part], &str); 8] = [
    (&[], "slot 0 closed\nslot 1 closed\nslot 2 closed\n"),
    (
        &[GATE_0, (8199, b"\x01")],
        "slot 0 bad number\nslot 1 closed\nslot 2 closed\n",
    ),
    (
        &[GATE_0, (12_289, b"\x01")],
        "slot 0 open number 0 length 0\nslot 1 bad gate\nslot 2 closed\n",
    ),
    (
        &[GATE_0, (8202, b"\x0F\xF1")],
        "slot 0 bad length\nslot 1 closed\nslot 2 closed\n",
    ),
    (
        &[GATE_0, (8204, b"\x01")],
        "slot 0 bad zeros\nslot 1 closed\nslot 2 closed\n",
    ),
    // Numbers 4 and 6; 3, 4 and 5; 4 in the slot of another.
    (
        &[GATE_0, (8199, b"\x06"), GATE_1, (16_391, b"\x04")],
        "slot 0 open number 6 length 0\nslot 1 open number 4 length 0\nslot 2 closed\n",
    ),
    (
        &[
            GATE_0,
            (8199, b"\x03"),
            GATE_1,
            (16_391, b"\x04"),
            GATE_2,
            (24_583, b"\x05"),
        ],
        "slot 0 open number 3 length 0\nslot 1 open number 4 length 0\n\
        slot 2 open number 5 length 0\n",
    ),
    (
        &[GATE_0, (8199, b"\x04")],
        "slot 0 bad number\nslot 1 closed\nslot 2 closed\n",
    ),
];

#[test]
fn damaged_slots(rt: HostRuntime) -> Result<(), Fail> {
    for (parts, text) in &DAMAGED {
        let mut all = Vec::from_slice(rt.alloc(), &[HEADER, HEADER_GATE])?;
        all.extend_from_slice(*parts)?;
        let mut disk = device(&rt, 28_672, &all)?;
        let text = format!(in rt.alloc(); "header index 0 count 1\n{text}answer none\n")?;
        finds(&rt, &mut disk, text.as_str())?;
        is_refused(&rt, disk, Refusal::Damaged);
    }
    Ok(())
}

/// A file of another length is refused before any call of it.
#[test]
fn files_of_another_length(rt: HostRuntime) -> Result<(), Fail> {
    for len in [28_671, 20_480] {
        let mut other = MemDisk::zeroed(rt.alloc(), len)?;
        assert!(rt; check(&mut other) == Err(Refusal::WrongFile));
        assert!(rt; format(&mut other, 0, 1) == Err(Refusal::WrongFile));
        made(&rt, &other, 0, 0);
        assert!(rt; other.failures() == 0);
        is_refused(&rt, other, Refusal::WrongFile);
    }
    Ok(())
}

#[test]
fn damaged_headers(rt: HostRuntime) -> Result<(), Fail> {
    let mut disk = device(&rt, 28_672, &[HEADER, GATE_0])?;
    finds(&rt, &mut disk, "header unformatted\n")?;
    is_refused(&rt, disk, Refusal::Unformatted);
    let mut disk = device(&rt, 28_672, &[HEADER, HEADER_GATE, (10, b"\x01"), GATE_0])?;
    finds(&rt, &mut disk, "header wrong\n")?;
    is_refused(&rt, disk, Refusal::WrongFile);
    Ok(())
}
