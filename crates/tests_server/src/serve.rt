//! Servers as no client sees them: when their texts are flushed, and the gate that each request passes.

mod gates;
pub(crate) mod rooms;

use crate::frames::{EMPTY, HI, SCAN, STORED_1};
use crate::server::{connect, gets, listen};
use crate::stores::new_files;
use gates::Holding;
use rooms::{Ready, Seen, host_printing};
use snap_order::Status;
use snap_server::NoGate;
use std::io::Write;
use std::net::SocketAddr;
use std::sync::atomic::Ordering;
use std::test::Fail;
use std::thread::yield_now;
use std::{io, thread};

/// The report on new files, after their names.
const FOUND: &str = "number 0 length 0 spare closed";

/// Whether the server printed its report, its address and its end, each flushed, and nothing else.
fn printed(rt: &HostRuntime, seen: &Seen, address: SocketAddr, served: u64) -> Result<bool, Fail> {
    let report = format!(in rt.alloc(); "segment 0 {FOUND}\nsegment 1 {FOUND}\nsegments 2\n")?;
    let text = format!(in rt.alloc(); "{report}|listening {address}\n|served {served}\n|")?;
    Ok(
        seen.status == Status::Done
            && seen.out.bytes.as_slice() == text.as_bytes()
            && seen.errors.is_empty(),
    )
}

#[test]
fn flushes_each_text(rt: HostRuntime) -> Result<(), Fail> {
    let (tcp, address) = listen(&rt)?;
    let ready = Ready::new(&tcp, address);
    let files = new_files(rt.alloc(), 2)?;
    let seen = host_printing(&rt, rt.alloc(), files, &ready, 2, 0, &NoGate)?;
    assert!(rt; printed(&rt, &seen, address, 0)?);
    Ok(())
}

/// Sends an update, which the gate holds. Whether a scan on another connection is answered meanwhile, and then the
/// update.
fn passes_a_held_update(rt: &HostRuntime, address: SocketAddr, gate: &Holding) -> io::Result<bool> {
    let mut first = connect(rt, address)?;
    let mut second = connect(rt, address)?;
    first.write_all(HI)?;
    for _ in 0..1_000_000u64 {
        if gate.entered.load(Ordering::SeqCst) > 0 {
            break;
        }
        yield_now();
    }
    second.write_all(SCAN)?;
    let passed = gets(&second, EMPTY)?;
    Ok(gets(&first, STORED_1)? && passed)
}

#[test]
fn scan_passes_a_held_update(rt: HostRuntime) -> Result<(), Fail> {
    let (tcp, address) = listen(&rt)?;
    let files = new_files(rt.alloc(), 2)?;
    let gate = Holding::new();
    let (rt, tcp, gate) = (&rt, &tcp, &gate);
    let (seen, passed) = thread::join(
        rt,
        move || host_printing(rt, rt.alloc(), files, &Ready::new(tcp, address), 2, 2, gate),
        move || passes_a_held_update(rt, address, gate),
    );
    assert!(rt; passed?);
    assert!(rt; gate.gave_up.load(Ordering::SeqCst) == 0);
    assert!(rt; printed(rt, &seen?, address, 2)?);
    Ok(())
}
