//! Prints replies.
ghost use Rattle.std.specs.Prelude.{◌≡◌, ◌++◌, flat_map, codes, OnOk};
ghost use Rattle.std.specs.Fmt.{decimal};
ghost use Rattle.snap_script.specs.Text.{entry_text, line_text, reply_text, value_text, world_text};

use itoa::Buffer;
use snap_order::put_hex;
use snap_world::{Kind, PartEntry, Reply, Write};
use std::alloc::AllocError;

/// Appends a reply's line.
pub(crate) fn print_reply(out: &mut Vec<u8>, reply: &Reply) -> Result<(), AllocError>
    ensures { OnOk result (out.new.items ≡ out.old.items ++ line_text (reply_text reply.now)) }
{
    match reply {
        Reply::Begun => out.extend_from_slice(b"begun\n"),
        Reply::Number(number) => put_number(out, b"number ", *number),
        Reply::Called(Kind::Write(Write::Close)) => out.extend_from_slice(b"called close\n"),
        Reply::Called(Kind::Write(Write::Body)) => out.extend_from_slice(b"called body\n"),
        Reply::Called(Kind::Write(Write::Open)) => out.extend_from_slice(b"called open\n"),
        Reply::Called(Kind::Sync) => out.extend_from_slice(b"called sync\n"),
        Reply::Called(Kind::Read) => out.extend_from_slice(b"called read\n"),
        Reply::DeviceFailed => out.extend_from_slice(b"device failed\n"),
        Reply::Shown => out.extend_from_slice(b"shown\n"),
        Reply::Stored(number) => put_number(out, b"stored ", *number),
        Reply::ScanBegun => out.extend_from_slice(b"scanning\n"),
        Reply::Memory(values) => put_memory(out, values),
        Reply::Part(entries) => put_part(out, entries),
        Reply::Crashed => out.extend_from_slice(b"crashed\n"),
        Reply::Restarting => out.extend_from_slice(b"restarting\n"),
        Reply::NotNow => out.extend_from_slice(b"not now\n"),
    }
}

/// Appends the line of a new world.
pub(crate) fn print_world(
    out: &mut Vec<u8>,
    segments: usize,
    scanners: usize,
) -> Result<(), AllocError>
    ensures { OnOk result (out.new.items ≡ out.old.items ++ line_text (world_text segments scanners)) }
{
    out.extend_from_slice(b"world ")?;
    out.extend_from_slice(Buffer::new().format(segments).as_bytes())?;
    out.extend_from_slice(b" ")?;
    out.extend_from_slice(Buffer::new().format(scanners).as_bytes())?;
    out.extend_from_slice(b"\n")
}

/// Appends a line of `text` and a number.
fn put_number(out: &mut Vec<u8>, text: &[u8], number: u64) -> Result<(), AllocError>
    ensures { OnOk result (out.new.items ≡ out.old.items ++ line_text (text.now ++ decimal number)) }
{
    out.extend_from_slice(text)?;
    out.extend_from_slice(Buffer::new().format(number).as_bytes())?;
    out.extend_from_slice(b"\n")
}

/// Appends the line of a memory.
fn put_memory(out: &mut Vec<u8>, values: &[Vec<u8>]) -> Result<(), AllocError>
    ensures { OnOk result (out.new.items ≡ out.old.items
        ++ line_text (codes "memory" ++ flat_map (λ v. value_text v.items) values.now)) }
{
    out.extend_from_slice(b"memory")?;
    for value in values {
        out.extend_from_slice(b" ")?;
        put_hex(out, value)?;
    }
    out.extend_from_slice(b"\n")
}

/// Appends the line of a part: segments with their values.
fn put_part(out: &mut Vec<u8>, entries: &[PartEntry]) -> Result<(), AllocError>
    ensures { OnOk result (out.new.items ≡ out.old.items
        ++ line_text (codes "part" ++ flat_map entry_text entries.now)) }
{
    out.extend_from_slice(b"part")?;
    for entry in entries {
        out.extend_from_slice(b" ")?;
        out.extend_from_slice(Buffer::new().format(entry.segment).as_bytes())?;
        out.extend_from_slice(b"=")?;
        put_hex(out, &entry.value)?;
    }
    out.extend_from_slice(b"\n")
}
