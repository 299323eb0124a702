//! How often the plug was pulled where.
use crate::plug::worker::Place;
use crate::values::SEGMENTS;
use snap_disk::Fill;
use std::io;

/// How many rounds pulled the plug while some writer was at each place, and which values came back of the interrupted
/// stores.
#[derive(Clone, Copy, Default)]
pub struct Tally {
    pub rounds: u64,
    /// Rounds with a writer at rest.
    pub at_rest: u64,
    /// Rounds with a writer inside a store.
    pub in_store: u64,
    /// Rounds with a writer between its store and its client's answer.
    pub before_answer: u64,
    /// Interrupted stores whose old value came back.
    pub old: u64,
    /// Interrupted stores whose new value came back.
    pub new: u64,
    /// Openings in the midst of which the plug was pulled.
    pub openings: u64,
    /// Crashes of a file that left its bytes.
    pub kept: u64,
    /// Crashes of a file that left one byte at all open places: that of closed gates or of open ones.
    pub alike: u64,
    /// Crashes that tore a file: its bytes up to a place, and drawn ones after it.
    pub torn: u64,
}

impl Tally {
    /// Counts a round by where its writers were.
    pub fn count(&mut self, places: &[Place; SEGMENTS]) {
        self.rounds += 1;
        self.at_rest += places.contains(&Place::AtRest) as u64;
        self.in_store += places.contains(&Place::InStore) as u64;
        self.before_answer += places.contains(&Place::BeforeAnswer) as u64;
    }

    /// Counts the recovered value of a writer that was at this place.
    pub fn count_back(&mut self, place: Place, is_new: bool) {
        if place == Place::InStore {
            self.new += is_new as u64;
            self.old += !is_new as u64;
        }
    }

    /// Counts a crash of a file by this fill.
    pub fn count_fill(&mut self, fill: &Fill) {
        match fill {
            Fill::Keep => self.kept += 1,
            Fill::All(_) => self.alike += 1,
            Fill::At(_, _) => self.torn += 1,
        }
    }

    /// Prints the counts in three lines, on standard error.
    pub fn print(&self, rt: &HostRuntime) -> io::Result<()> {
        let Tally {
            rounds,
            at_rest,
            in_store,
            before_answer,
            old,
            new,
            openings,
            kept,
            alike,
            torn,
        } = *self;
        eprintln!(rt;
            "the plug was pulled in {rounds} rounds: {at_rest} found a writer at rest, \
            {in_store} inside a store, {before_answer} between its store and the answer\n\
            of the cut stores {old} left the old value and {new} the new one; \
            {openings} openings were cut too\n\
            crashes left the bytes of {kept} files, one byte at the open places of {alike}, and tore {torn}"
        )
    }
}
