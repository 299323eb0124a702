//! The table of the registers' words, its rule (specs/Rule.antt), and the result of each step on it.
ghost use Rattle.snap_register.specs.Rule.{Kept, pinning, revisited, giving, caught_up, read, checked, reused};
ghost use Rattle.snap_register.specs.Rule.{retained, redrafted};
ghost use Rattle.snap_register.specs.Rule.{published, begun, ended, messenger, reader, without_reader, first_role};
ghost use Rattle.snap_register.specs.Rule.{without_first_role, with_received, with_seen_of, spent};

use crate::plan::{Opening, SeatView};
use atomic_table::{Join, Play, Seat, Split, Table, TableRule};
use std::alloc::Global;
use std::snapshot::Snapshot;

/// The arguments with which the table is made.
#[derive(Drop)]
pub struct Setup {
    pub scanners: usize,
    pub looks: u64,
    pub block_words: usize,
    pub values: Snapshot<Vec<Opening>>,
}

pub struct OneHistory;

impl TableRule<(), SeatView, Setup> for OneHistory {
    ghost use Rattle.snap_register.specs.Setup.{plan_of, first_view};

    ghost holds = { λ g. Kept (plan_of g) };

    ghost first = { λ g. first_view (plan_of g) };
}

pub type WordTable = Table<(), SeatView, Setup, OneHistory, Global>;

pub type TableSeat = Seat<(), SeatView>;

// The steps in the table at the head of lib.rt, and their results.
pub(crate) struct Pin;

impl Play<(), SeatView> for Pin {
    ghost then = { pinning };
}

pub(crate) struct Revisit;

impl Play<(), SeatView> for Revisit {
    ghost then = { revisited };
}

pub(crate) struct GiveBack;

impl Play<(), SeatView> for GiveBack {
    ghost then = { giving };
}

pub(crate) struct CatchUp;

impl Play<(), SeatView> for CatchUp {
    ghost then = { caught_up };
}

pub(crate) struct BeginStore;

impl Play<(), SeatView> for BeginStore {
    ghost then = { begun };
}

pub(crate) struct EndStore;

impl Play<(), SeatView> for EndStore {
    ghost then = { ended };
}

pub(crate) struct Read;

impl Play<(), SeatView> for Read {
    ghost then = { read };
}

pub(crate) struct Check;

impl Play<(), SeatView> for Check {
    ghost then = { checked };
}

pub(crate) struct Reuse;

impl Play<(), SeatView> for Reuse {
    ghost then = { reused };
}

pub(crate) struct Retain;

impl Play<(), SeatView> for Retain {
    ghost then = { retained };
}

pub(crate) struct Redraft;

impl Play<(), SeatView> for Redraft {
    ghost then = { redrafted };
}

pub(crate) struct Publish;

impl Play<(), SeatView> for Publish {
    ghost then = { published };
}

/// Splits off a messenger: it has seen as much, and pins and writes nothing.
pub(crate) struct SplitMessenger;

impl Split<SeatView> for SplitMessenger {
    ghost left = { λ v. v };

    ghost right = { messenger };
}

/// Splits off a seat that writes the first segment.
pub(crate) struct SplitWriter;

impl Split<SeatView> for SplitWriter {
    ghost left = { without_first_role };

    ghost right = { first_role };
}

/// Splits off a seat that writes nothing.
pub(crate) struct SplitReader;

impl Split<SeatView> for SplitReader {
    ghost left = { without_reader };

    ghost right = { reader };
}

/// Joins two seats: the first receives what the second has seen.
pub(crate) struct JoinMessage;

impl Join<SeatView> for JoinMessage {
    ghost both = { with_received };

    ghost spent = { spent };
}

/// Joins two seats: the first has seen what the second has.
pub(crate) struct JoinAnswer;

impl Join<SeatView> for JoinAnswer {
    ghost both = { with_seen_of };

    ghost spent = { spent };
}
