//! The only writer of a segment.
ghost use Rattle.std.specs.Prelude.{◌≡◌, ◌≢◌, ℕ, ◌+◌, ◌<◌, ◌≤◌, ◌↔◌, List, length, None, IsSome, IsTrue, OnOk, OnErr};
ghost use Rattle.std.specs.Option.{option_copied};
ghost use Rattle.snap_disk.specs.Device.{IsSettled, CountsCalls, MayLeave};
ghost use Rattle.snap_disk.specs.Time.{LeavesOnly};
ghost use Rattle.snap_history.specs.Limits.{IsNumber, IsShort};
ghost use Rattle.snap_segment.specs.Segment.{CountsRefusal, IsKept};
ghost use Rattle.snap_segment.specs.{Layout.IsFileOf, States.IsEither, Stage.store_calls};
ghost use Rattle.snap_register.specs.Seat.{AreTogether, Meets, IsBelow, own_of, number_in, value_in, MayPublish, Shows};
ghost use Rattle.snap_memory.specs.Scans.{CanScan, TakesLooks};
ghost use Rattle.snap_writer.specs.Update.{IsSameSeat, Advances, Fails};
ghost use Rattle.snap_writer.specs.{Writer.number_of, Writer.value_of, Writer.phase_of, Judge.IsJudged, Judge.IsAnswer};
ghost use Rattle.snap_writer.specs.{Life.HasLived, Life.IsShown, Updated.IsUpdated};

use crate::judgement::Judgement;
use crate::noted_segment::NotedSegment;
use snap_disk::{Disk, Refusal};
use snap_history::{LAST_NUMBER, MAX_VALUE_LEN};
use snap_memory::{Scanner, prepare};
use snap_register::{Looker, WriteSeat};
use snap_segment::Segment;
use std::marker::Model;

/// The only writer of a segment: its file and its seat at the registers.
///
/// The file has the number and value that the writer showed last. It allocates nothing, and waits for its device alone.
#[derive(Drop)]
pub struct Writer<D: Disk> {
    segment: NotedSegment<D>,
    seat: WriteSeat,
}

impl<D: Disk> Model for Writer<D> {
    ghost use Rattle.snap_writer.specs.Writer.{WriterState, IsPaired};

    ghost Value = { WriterState D };

    ghost view = { λ w. record { segment = w.segment; seat = w.seat } };

    ghost invariant = { λ w. IsPaired (record { segment = w.segment; seat = w.seat }) };
}

impl<D: Disk> Writer<D> {
    /// A writer with this file and this seat, which have the same number and value. The seat says that a store was
    /// begun if one of the file has failed, and else that the file has what was shown last.
    pub fn new(segment: Segment<D>, seat: WriteSeat) -> Writer<D>
        requires number { segment.number ≡ number_in seat seat.seen (own_of seat) }
        requires value { segment.value ≡ value_in seat seat.seen (own_of seat) }
        requires phase { seat.phase ≡ phase_of segment.begun }
        ensures segment { result.segment ≡ segment }
        ensures seat { result.seat ≡ seat }
    {
        // Called for its contract: the seat writes no other segment (docs/DECISIONS.md, 180).
        let _own = seat.segment();
        Writer {
            segment: NotedSegment::new(segment),
            seat,
        }
    }

    /// The one segment that it writes.
    pub fn segment(&self) -> usize
        ensures own { result ≡ own_of self.now.seat }
        ensures alone { self.now.seat.high ≡ self.now.seat.low + 1 }
    {
        self.seat.segment()
    }

    /// The number shown last: how many values were stored since the file was formatted.
    pub fn number(&self) -> u64
        ensures number { result ≡ number_of self.now }
        ensures stored { result ≡ self.now.segment.number }
        ensures low { IsNumber result }
    {
        self.segment.as_ref().number()
    }

    /// The value shown last, at most [`MAX_VALUE_LEN`] bytes.
    pub fn value(&self) -> &[u8]
        ensures value { result.now ≡ value_of self.now }
        ensures stored { result.now ≡ self.now.segment.value }
        ensures size { IsShort result.now }
    {
        self.segment.as_ref().value()
    }

    /// Whether a store has failed since the file was opened. If not, no place of the device is
    /// open, and it holds the number and the value shown last. If so, a crash leaves these, or the
    /// next number with the value whose store failed.
    pub fn is_fenced(&self) -> bool
        ensures fence { IsTrue result ↔ IsSome self.now.segment.begun }
        ensures kept { D.is_honest self.now.segment.device → IsKept self.now.segment.index self.now.segment.count
            (number_of self.now) (value_of self.now) self.now.segment.begun
            self.now.segment.spare_open (D.device self.now.segment.device) }
    {
        self.segment.as_ref().is_fenced()
    }

    /// The number shown last, and whether a store has failed.
    pub fn status(&self) -> (u64, bool)
        ensures number { result.0 ≡ number_of self.now }
        ensures low { IsNumber result.0 }
        ensures fence { IsTrue result.1 ↔ IsSome self.now.segment.begun }
    {
        (self.number(), self.is_fenced())
    }

    /// The value whose store failed, if one has.
    pub fn begun(&self) -> Option<&[u8]>
        ensures { option_copied result ≡ self.now.segment.begun }
    {
        self.segment.as_ref().begun()
    }

    /// How many looks its seat has left. An update uses up those of its scan.
    pub fn looks_left(&self) -> u64
        ensures { result ≡ self.now.seat.left }
    {
        self.seat.looks_left()
    }

    /// Stores `value` under `number`, then shows it, and returns the number. An update that was
    /// shown last is acknowledged again. So a caller that doesn't know whether its update arrived
    /// sends it again, also to another writer of the file after a restart.
    ///
    /// The first rule of [`Judgement`] that applies decides. Unless that is `Go`, the device isn't called, and nothing
    /// changes. Else the writer scans, stores and shows.
    ///
    /// `DeviceFailed` if a device call failed: the number, the value and the results of scans stay,
    /// and the writer is fenced from now on.
    pub fn update(&mut self, number: u64, value: &[u8]) -> Result<u64, Refusal>
        ensures updated { IsUpdated D.Disk self.old self.new number value.now result }
        ensures shown { IsShown self.old × IsShown self.new }
        ensures low { IsNumber (number_of self.old) }
    {
        match self.judge(number, value) {
            Judgement::Go => self.advance(value),
            rule => answer(rule, number),
        }
    }

    /// Joins what the scanner and the writer have seen, so that the scanner's next scan has all
    /// that the writer showed. It isn't a look.
    pub fn meet(&mut self, scanner: &mut Scanner)
        requires together { AreTogether scanner.old self.old.seat }
        ensures scanner { Meets scanner.old scanner.new }
        ensures writer { Meets self.old.seat self.new.seat }
        ensures met { scanner.new.seen ≡ self.new.seat.seen }
        ensures shown { IsShown self.old × IsShown self.new }
        ensures below { IsBelow scanner.new }
        ensures segment { self.new.segment ≡ self.old.segment }
        ensures lived { HasLived D.Disk self.old self.new }
    {
        scanner.meet(&mut self.seat);
    }

    /// Returns the file, with the number and the value shown last. This ends the seat, so that
    /// nobody can show by it what isn't stored.
    pub fn into_segment(self) -> Segment<D>
        ensures segment { result ≡ self.segment }
        ensures number { self.segment.number ≡ number_of self }
        ensures value { self.segment.value ≡ value_of self }
    {
        let Writer { segment, .. } = self;
        segment.into_inner()
    }

    // The rule that decides an update. Lengths are checked before numbers, and a repeat before the
    // fence. Nothing was called, so the file is at rest.
    fn judge(&self, number: u64, value: &[u8]) -> Judgement
        ensures rule { IsJudged self.now number value.now result }
        ensures shown { IsShown self.now }
        ensures low { IsNumber (number_of self.now) }
        ensures phase { self.now.seat.phase ≡ phase_of self.now.segment.begun }
        ensures kept { D.is_honest self.now.segment.device → IsKept self.now.segment.index self.now.segment.count
            (number_of self.now) (value_of self.now) self.now.segment.begun
            self.now.segment.spare_open (D.device self.now.segment.device) }
    {
        let seat = &self.seat;
        let fenced = self.is_fenced();
        let shown = self.number();
        if value.len() > MAX_VALUE_LEN {
            return Judgement::TooLong;
        }
        if number == shown {
            return if value == self.segment.as_ref().value() {
                Judgement::Stored
            } else {
                Judgement::Conflict
            };
        }
        if number != shown + 1 {
            return Judgement::OutOfStep;
        }
        if shown == LAST_NUMBER {
            return Judgement::Exhausted;
        }
        if fenced {
            return Judgement::Fenced;
        }
        if seat.can_scan() {
            Judgement::Go
        } else {
            Judgement::Worn
        }
    }

    // Scans, stores and shows an update. The registers are told that the store begins, and that it has ended, so that
    // at any instant they say what the file may hold.
    fn advance(&mut self, value: &[u8]) -> Result<u64, Refusal>
        requires size { IsShort value.now }
        requires next { IsNumber (number_of self.old + 1) }
        requires open { self.old.segment.begun ≡ None }
        requires left { CanScan self.old.seat }
        ensures count { CountsRefusal result (D.failure_count self.old.segment.device)
            (D.failure_count self.new.segment.device) }
        ensures honest { D.is_honest self.new.segment.device → D.is_honest self.old.segment.device }
        ensures same_seat { IsSameSeat self.old.seat self.new.seat }
        ensures shown { IsShown self.new }
        ensures answer { IsAnswer (number_of self.old + 1) Judgement.Go result }
        ensures advances { OnOk result (Advances self.old self.new value.now) }
        ensures fails { OnErr result (Fails self.old self.new value.now) }
        ensures calls { CountsCalls result (length (store_calls self.old.segment.spare_open))
            (D.clock self.old.segment.device) (D.clock self.new.segment.device) }
        ensures left { TakesLooks self.old.seat self.new.seat }
        ensures below { IsBelow self.new.seat }
        ensures any_time { D.is_honest self.new.segment.device
            → LeavesOnly D.Disk self.old.segment.device self.new.segment.device
            (IsEither self.old.segment.index self.old.segment.count
            (number_of self.old) (value_of self.old) value.now) }
        ensures last { D.is_honest self.new.segment.device → OnOk result (IsSettled (D.device self.new.segment.device)
            × ((b : List ℕ) → MayLeave (D.device self.new.segment.device) b
            → IsFileOf self.old.segment.index self.old.segment.count (number_of self.old + 1) value.now b)) }
        ensures either { D.is_honest self.new.segment.device
            → OnErr result ((b : List ℕ) → MayLeave (D.device self.new.segment.device) b
            → IsEither self.old.segment.index self.old.segment.count
            (number_of self.old) (value_of self.old) value.now b) }
    {
        let view = prepare(&mut self.seat);
        self.seat.begin_store();
        self.segment.store(&self.seat, value)?;
        self.seat.end_store();
        Ok(self.seat.publish(value, &view))
    }
}

/// The result of an update to `number`, under a rule that calls nothing.
fn answer(rule: Judgement, number: u64) -> Result<u64, Refusal>
    requires { rule ≢ Judgement.Go }
    ensures answer { IsAnswer number rule result }
    ensures count { (n : ℕ) → CountsRefusal result n n }
{
    match rule {
        Judgement::TooLong => Err(Refusal::TooLong),
        Judgement::Stored => Ok(number),
        Judgement::Conflict => Err(Refusal::Conflict),
        Judgement::OutOfStep => Err(Refusal::OutOfStep),
        Judgement::Exhausted => Err(Refusal::Exhausted),
        Judgement::Fenced => Err(Refusal::Fenced),
        Judgement::Worn => Err(Refusal::Worn),
        Judgement::Go => unreachable!(),
    }
}
