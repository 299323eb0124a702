//! An opening of all files, and the check of the recovered values.
use crate::plug::device::Plugged;
use crate::plug::pull::{Plug, Pull};
use crate::plug::tally::Tally;
use crate::plug::worker::Place;
use crate::values::{Numbers, SEGMENTS, is_value_of};
use snap_devices::MemDisk;
use snap_disk::Refusal;
use snap_restart::{Store, open_all};
use snap_writer::Writer;
use std::alloc::Global;
use std::io;

pub(crate) const SCANNERS: usize = 2;

/// The numbers that may come back after a crash.
#[derive(Clone, Copy)]
pub struct Past {
    /// The greatest number of each segment that its client received or a scan showed.
    pub least: Numbers,
    /// The same number, or the next one if a call of a further store was done.
    pub most: Numbers,
    /// Where the writers were when the plug was pulled.
    pub places: [Place; SEGMENTS],
}

impl Past {
    /// These numbers and no others.
    pub(crate) fn at(numbers: Numbers) -> Past {
        Past {
            least: numbers,
            most: numbers,
            places: [Place::AtRest; SEGMENTS],
        }
    }
}

/// An open store, and its plug.
#[derive(Drop)]
pub struct Machine {
    pub store: Store<Plugged>,
    pub plug: Plug,
    /// The plug of each client, in order of the segments.
    pub client_plugs: Vec<Plug>,
}

/// The result of an opening.
#[derive(Drop)]
pub enum Opened {
    Whole(Machine),
    /// The plug was pulled before all files were open.
    Cut(Vec<Plugged>),
}

/// Opens all files. Nothing else than the plug may stop that.
pub(crate) fn open(alloc: Global, devices: Vec<MemDisk>, pull: Pull) -> io::Result<Opened> {
    let plug = Plug::new(alloc, pull)?;
    let (mut plugged, mut client_plugs) = (Vec::new(alloc), Vec::new(alloc));
    for disk in devices {
        let client_plug = plug.for_device(alloc)?;
        plugged.push(Plugged::new(disk, client_plug.copied()?))?;
        client_plugs.push(client_plug)?;
    }
    match open_all(alloc, plugged, SCANNERS) {
        Ok((store, _)) => Ok(Opened::Whole(Machine {
            store,
            plug,
            client_plugs,
        })),
        Err(stopped) => {
            if stopped.refusal != Refusal::DeviceFailed || !plug.is_pulled() {
                return Err(io::Error::other("an opening was refused"));
            }
            Ok(Opened::Cut(stopped.devices))
        }
    }
}

/// Whether the recovered numbers and values are allowed: nothing is lost that was acknowledged or shown, and nothing is
/// there that wasn't begun.
fn is_allowed(writer: &Writer<Plugged>, segment: usize, past: &Past) -> bool {
    let number = writer.number();
    past.least[segment] <= number
        && number <= past.most[segment]
        && is_value_of(segment, number, writer.value())
}

/// Writes the recovered numbers and the allowed ones in the 80 characters that an error may have.
fn wrong(alloc: Global, writer: &Writer<Plugged>, segment: usize, past: &Past) -> io::Error {
    let (number, least, most) = (writer.number(), past.least[segment], past.most[segment]);
    let is_right = is_value_of(segment, number, writer.value());
    let said = format!(in alloc;
        "segment {segment} came back at {number}, value right: {is_right}; {least} to {most} may"
    );
    match said {
        Ok(said) => io::Error::other(said.as_str()),
        Err(none) => none.into(),
    }
}

/// Checks the recovered numbers and values, and counts them. From now on only these may be recovered.
pub(crate) fn judge(
    alloc: Global,
    writers: &Vec<Writer<Plugged>>,
    past: &mut Past,
    tally: &mut Tally,
) -> io::Result<()> {
    let mut numbers = [0; SEGMENTS];
    if writers.len() != SEGMENTS {
        return Err(io::Error::other("a writer is missing"));
    }
    for (segment, writer) in writers.iter().enumerate() {
        if !is_allowed(writer, segment, past) {
            return Err(wrong(alloc, writer, segment, past));
        }
        let number = writer.number();
        numbers[segment] = number;
        tally.count_back(past.places[segment], number > past.least[segment]);
    }
    *past = Past::at(numbers);
    Ok(())
}
