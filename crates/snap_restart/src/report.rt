//! The report of a restart, as text (docs/FORMATS.md).
ghost use Rattle.std.specs.Prelude.{Some};
ghost use Rattle.snap_restart.specs.Report.{recovered_text, report_text};

use std::fmt;

/// A segment in the report: what was recovered of it.
#[derive(Clone, Copy, PartialEq, Eq)]
pub struct Recovered {
    /// How many values were stored since the file was formatted.
    pub number: u64,
    /// The length of its value in bytes.
    pub length: usize,
    /// Whether the slot of the previous number is still open, so that the next store closes it.
    pub spare_open: bool,
}

/// The report of a restart: what was recovered of each segment, in order. `Display` gives a line
/// for each of them, and one with their count.
#[derive(Drop)]
pub struct Report {
    pub segments: Vec<Recovered>,
}

impl fmt::Display for Report {
    ghost output = { λ report. Some (report_text report) };

    fn fmt<W: fmt::Write>(&self, f: &mut fmt::Formatter<W>) -> fmt::Result {
        for (index, segment) in self.segments.iter().enumerate() {
            let found = SegmentLine {
                index,
                segment: *segment,
            };
            writeln!(f, "{found}")?;
        }
        writeln!(f, "segments {}", self.segments.len())
    }
}

/// The line of one segment.
#[derive(Drop)]
struct SegmentLine {
    index: usize,
    segment: Recovered,
}

impl fmt::Display for SegmentLine {
    ghost output = { λ found. Some (recovered_text found.index found.segment) };

    fn fmt<W: fmt::Write>(&self, f: &mut fmt::Formatter<W>) -> fmt::Result {
        let Recovered {
            number,
            length,
            spare_open,
        } = self.segment;
        let spare = if spare_open { "open" } else { "closed" };
        let index = self.index;
        write!(
            f,
            "segment {index} number {number} length {length} spare {spare}"
        )
    }
}
