//! Exit statuses.
ghost use Rattle.std.specs.Prelude.{◌≡◌};

/// How the program ends. [`Status::code`] is the exit status.
#[derive(Clone, Copy, PartialEq, Eq)]
pub enum Status {
    /// Done.
    Done,
    /// A path, a standard stream, an address or a connection failed.
    Failed,
    /// The arguments or a script's line can't be parsed, or a number is outside its limits.
    Misused,
    /// Refused with a number; or a check found no value to serve, or a segment is fenced.
    Refused,
}

impl Status {
    ghost use Rattle.snap_order.specs.Status.{code_of};

    /// The exit status, 0 to 3.
    pub fn code(self) -> u8
        ensures { result ≡ code_of self }
    {
        match self {
            Status::Done => 0,
            Status::Failed => 1,
            Status::Misused => 2,
            Status::Refused => 3,
        }
    }
}

/// How a command ended.
#[derive(Clone, Copy, PartialEq, Eq)]
pub struct Exit {
    /// The exit status of the program.
    pub status: Status,
    /// Whether standard error took the whole line that says why the command failed; true if it has no such line.
    pub is_told: bool,
}
