//! The registers that threads share, over pinned buffers: one history of updates, of which every
//! seat has seen a beginning. All operations are wait-free.
//!
//! # The rule of the pins
//!
//! A segment's register has n + S + 2 buffers, for n segments and S scanners. Each holds a record: an update's number,
//! its value, and its view. One buffer is *current*. The register's *current word* is the index of this buffer times
//! 2^56, plus the number of pins taken on it since it became current. Each buffer also has a *given-back count*. All of
//! these are words of one table (`atomic_table`), and threads touch them only by the steps below.
//!
//! A *seat* belongs to a writer or a scanner. It takes a look by one addition to the current word. This returns the
//! index of the current buffer, and counts a pin on that buffer at once. From then on nobody writes the buffer until
//! the seat returns the pin by an addition to the given-back count, at its next look there. So it can read the record
//! word by word, in its own time. A look begins by a load of the current word: if the buffer that the seat pins is
//! still the current one, that was the look, and the pin stays.
//!
//! A writer shows an update by filling a buffer that nobody pins and swapping it in. The swap returns how many pins the
//! old current word had counted, so the writer knows for each of its buffers all pins ever taken on it. A buffer that
//! isn't current gets no new pins: once as many were given back, nobody pins it. Each of the n + S seats pins at most
//! one buffer of a register, and n + S + 1 aren't current, so one of these is free, and the writer never waits. Each
//! seat has 2^50 looks at most, so no count of pins comes near 2^56.
//!
//! # One history
//!
//! No word holds the history of all updates. The rule (`Kept`, specs/Rule.antt) says that between any two steps there
//! is a history such that: each current buffer holds the record of its segment's last update in it; each update's view
//! is the memory after a beginning of it, in which the update's own segment was one number lower; and what each seat
//! has seen is a beginning of it. A step may rely on the rule and on what its own seat knows (`SeatView`), but not on
//! what other seats know, and has to keep the rule.
//!
//! | Step | Whose | What it does | What its seat knows then | Where |
//! |---|---|---|---|---|
//! | `Pin` | any | adds 1 to a current word | the whole history; the buffer is pinned | `looks::pin` |
//! | `Revisit` | any | loads a current word | the whole history, if it pins that buffer | `looks::revisit` |
//! | `Read` | any | loads a word of a pinned buffer | that word of the record | `looks::load_word` |
//! | `GiveBack` | any | adds 1 to a given-back count | the pin is returned | `looks::give_back` |
//! | `Check` | writer | loads the given-back count of a former buffer | it is free, or held | `publications::check` |
//! | `Reuse`, `Redraft` | writer | replaces the free buffer's next word | a word more of the draft | `draft_word` |
//! | `Retain` | writer | loads a word of the free buffer | its former record's words up to it | `draft::keep` |
//! | `BeginStore`, `EndStore` | writer | loads a current word | that its store begins, or has ended | `publications` |
//! | `Publish` | writer | swaps the free buffer in | the history to its update; the old pins | `publications::swap` |
//! | `CatchUp`, joins, splits | any two | joins two seats' views, loads a word | the whole history | `meetings::meet` |
//!
//! The result of a step is a function of the view, named in setup.rt. proofs/Keeps.antt and the files beside it prove
//! that each step keeps the rule. An opening makes the table, with all knowledge in one view, and splits off a seat for
//! each writer and scanner (tables.rt).
#![tactic(auto)]

mod access;
mod plan;
mod registers;
mod seats;
mod setup;
mod snapshot;
mod tables;
mod view;
mod words;

pub use plan::{BufferPool, Entry, LookRecord, Opening, Plan, SeatView, Start, UpdatePhase};
pub use registers::Registers;
pub use seats::{Looker, ReadSeat, WriteSeat};
pub use setup::{OneHistory, Setup, TableSeat, WordTable};
pub use snapshot::SnapshotBuf;
pub use tables::Parts;
pub use view::View;
