//! Scripts: a world's events as text, one a line, run on a new world, with the reply to each.
//!
//! [`script`] runs the events of the lines, and writes replies that a new world may give to them (`specs/Script.antt`).
//! `specs/Line.antt` and `specs/Words.antt` have the form of each line, and `specs/Text.antt` has the printed text. A
//! line is read as an event exactly if its words have that event's form. [`play`] is the command `script` of the
//! program.
//!
//! A line takes the memory of its bytes, of its event's values and of the reply's, and no more.
#![tactic(auto)]

mod command;
mod fault;
mod interpreter;
mod line;
mod line_buffer;
mod print;
mod run;
mod verb;
mod words;

pub use command::play;
pub use fault::LineFault;
pub use run::{MAX_LINE, ScriptEnd, script};
pub use verb::Verb;
