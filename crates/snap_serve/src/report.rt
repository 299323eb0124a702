//! The lines that a server prints.
ghost use Rattle.std.specs.Prelude.{◌≡◌, OnOk, IfOk, IfErr, string_bytes};
ghost use Rattle.std.specs.Io.KnownBytes.{Appends};
ghost use Rattle.snap_order.specs.Streams.{AppendsBeginning};
ghost use Rattle.snap_restart.specs.Report.{report_text};
ghost use Rattle.snap_serve.specs.Serve.{PrintFails, listening_text, served_line};

use crate::fault::HostFault;
use crate::observer::ServerObserver;
use snap_order::write_whole;
use snap_restart::Report;
use snap_server::{Announce, Endpoint};
use std::alloc::{AllocError, Global};
use std::io::{self, Write};

/// Prints what was found in the files.
pub(crate) fn print_report<W: Write>(
    alloc: Global,
    report: &Report,
    writer: &mut W,
) -> Result<(), HostFault>
    ensures whole { OnOk result (Appends (W.contents writer.old) (W.contents writer.new) (report_text report.now)) }
    ensures failed { IfErr result
        (PrintFails (W.contents writer.old) (W.contents writer.new) (report_text report.now)) }
{
    let text = report.to_string(alloc).map_err(|_| HostFault::NoMemory)?;
    print_line(&text, writer).map_err(HostFault::Output)
}

/// Prints how many connections were served.
pub(crate) fn print_served<W: Write>(
    alloc: Global,
    served: u64,
    writer: &mut W,
) -> Result<(), HostFault>
    ensures whole { OnOk result (Appends (W.contents writer.old) (W.contents writer.new) (served_line served)) }
    ensures failed { IfErr result (PrintFails (W.contents writer.old) (W.contents writer.new) (served_line served)) }
{
    let line = format!(in alloc; "served {served}\n").map_err(|_| HostFault::NoMemory)?;
    print_line(&line, writer).map_err(HostFault::Output)
}

/// Prints a whole text and flushes it. No clause says that it is flushed, since a flush doesn't
/// change what the writer holds.
fn print_line<W: Write>(text: &String, writer: &mut W) -> io::Result<()>
    ensures whole { OnOk result (Appends (W.contents writer.old) (W.contents writer.new) (string_bytes text.now)) }
    ensures beginning { AppendsBeginning (W.contents writer.old) (W.contents writer.new) (string_bytes text.now) }
{
    write_whole(writer, text.as_bytes())?;
    writer.flush()
}

/// An announcement that prints lines and then notifies `watch`. The lines were made before, so it allocates nothing.
#[derive(Drop)]
pub(crate) struct Announcement<H: Drop> {
    pub(crate) lines: String,
    pub(crate) watch: H,
}

/// Makes a line for each address at which the server listens.
pub(crate) fn lines_of(alloc: Global, endpoints: &[Endpoint]) -> Result<String, AllocError>
    ensures { IfOk result (λ lines. string_bytes lines ≡ listening_text endpoints.now) }
{
    let mut lines = String::new(alloc);
    'places: for endpoint in endpoints {
        write!(lines, "listening {endpoint}\n")?;
    }
    Ok(lines)
}

impl<W: Write, H: ServerObserver + Drop> Announce<W> for Announcement<H> {
    ghost announces = { λ announcement old new.
        Appends (W.contents old) (W.contents new) (string_bytes announcement.lines) };

    ghost fails = { λ announcement old new.
        AppendsBeginning (W.contents old) (W.contents new) (string_bytes announcement.lines) };

    fn announce(&self, to: &mut W) -> io::Result<()> {
        let said = print_line(&self.lines, to);
        if said.is_ok() {
            self.watch.begun(self.lines.as_str());
        }
        said
    }
}
