//! Reasons why the arguments can't be parsed.
use snap_order::MAX_UPDATE_VALUE;
use std::alloc::AllocError;
use thiserror::Error;

/// The end of each message.
const MORE: &str = "\n\nFor more information, try '--help'.";

/// The reason why the arguments can't be parsed. Its message goes to standard error after
/// `snapd: `; that of `Help` goes to standard output.
#[derive(Debug, Drop, Error)]
pub enum WordFault {
    /// Help or the version was asked for.
    #[error(transparent)]
    Help(clap::Error),
    /// The arguments don't match the grammar of the commands.
    #[error(transparent)]
    Words(clap::Error),
    /// A number is 0, or more than the limit.
    #[error("error: the {what} {number} is not from 1 to {most}{more}", more = MORE)]
    Outside {
        what: &'static str,
        number: usize,
        most: usize,
    },
    /// The number of an option is none from 1 to the limit. `what` is in the plural.
    #[error("error: the {what} are not from 1 to {most}{more}", more = MORE)]
    OptionOutside {
        what: &'static str,
        most: u32,
    },
    /// The index isn't less than the count.
    #[error("error: the index {index} is not below the count {count}{more}", more = MORE)]
    Index {
        index: u8,
        count: u8,
    },
    /// This argument isn't a number from 0 to 255.
    #[error("error: the {0} is not a number from 0 to 255{more}", more = MORE)]
    Number(&'static str),
    /// This argument is missing.
    #[error("error: no {0} is given{more}", more = MORE)]
    Missing(&'static str),
    /// The value of an update or a put has so many bytes, and doesn't fit a request.
    #[error("error: the update's value has {0} bytes, and a request holds at most \
        {most}{more}", most = MAX_UPDATE_VALUE, more = MORE)]
    TooLong(usize),
    /// The arguments break another rule, and this says which.
    #[error("error: {0}{more}", more = MORE)]
    Rule(&'static str),
    /// An argument isn't UTF-8 text.
    #[error("error: a word is not UTF-8 text")]
    NotText,
    /// Memory ran out.
    #[error("out of memory")]
    Memory,
}

impl From<AllocError> for WordFault {
    ghost use Rattle.std.specs.Prelude.{◌≡◌};
    ghost use Rattle.snap_args.specs.declared.fault.WordFault.TheVariants.{Memory};

    ghost from_gives = { λ _ fault. fault ≡ Memory };

    fn from(_error: AllocError) -> WordFault {
        WordFault::Memory
    }
}
