//! Parses the command line of `snapd`.
//!
//! [`order`] returns the parsed command line, an `Order`, or the fault in the arguments. `clap` parses the arguments by
//! the grammar in `specs/Grammar.antt`; `specs/Orders.antt` says which order they mean. [`lack_of`] and
//! [`is_everywhere`] check the text of an address.
#![tactic(auto)]

mod address;
mod call;
mod dump;
mod fault;
mod grammar;
mod help;
mod numbers;
mod request;
mod serve;
mod watch;
mod words;

pub use address::{AddressFault, is_everywhere, lack_of};
pub use fault::WordFault;
pub use grammar::VERSION;
pub use words::order;
