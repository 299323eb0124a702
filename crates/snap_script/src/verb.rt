//! The first words of event lines.
ghost use Rattle.std.specs.Prelude.{◌≡◌, ◌≢◌, MatchOption};

/// The first word of an event's line.
#[derive(Clone, Copy, Debug, Drop)]
pub enum Verb {
    /// `begin W HEX`
    Begin,
    /// `look wW` or `look sS`
    Look,
    /// `call W`
    Call,
    /// `fail W FILL`
    Fail,
    /// `show W`
    Show,
    /// `ack W`
    Acknowledge,
    /// `scan S`
    Scan,
    /// `pick S MASK`
    Pick,
    /// `answer S`
    Answer,
    /// `crash FILL ..`
    Crash,
    /// `restart`
    Restart,
    /// `recall`
    RestartCall,
    /// `refail FILL`
    RestartFail,
    /// `serve`
    Serve,
}

impl Verb {
    ghost use Rattle.snap_script.specs.Line.{name_of};

    /// The verb of this word.
    pub(crate) fn named(word: &[u8]) -> Option<Verb>
        ensures { MatchOption result ((v : Verb) → name_of v ≢ word.now) (λ v. name_of v ≡ word.now) }
    {
        Some(match word {
            b"begin" => Verb::Begin,
            b"look" => Verb::Look,
            b"show" => Verb::Show,
            b"ack" => Verb::Acknowledge,
            b"scan" => Verb::Scan,
            b"pick" => Verb::Pick,
            b"answer" => Verb::Answer,
            b"call" => Verb::Call,
            b"fail" => Verb::Fail,
            b"crash" => Verb::Crash,
            b"restart" => Verb::Restart,
            b"recall" => Verb::RestartCall,
            b"refail" => Verb::RestartFail,
            b"serve" => Verb::Serve,
            _ => return None,
        })
    }

    /// The form of its line, as a fault prints it.
    pub(crate) fn form(self) -> &'static str {
        match self {
            Verb::Begin => "begin W HEX",
            Verb::Look => "look wW` or `look sS",
            Verb::Call => "call W",
            Verb::Fail => "fail W FILL",
            Verb::Show => "show W",
            Verb::Acknowledge => "ack W",
            Verb::Scan => "scan S",
            Verb::Pick => "pick S MASK",
            Verb::Answer => "answer S",
            Verb::Crash => "crash FILL ..",
            Verb::Restart => "restart",
            Verb::RestartCall => "recall",
            Verb::RestartFail => "refail FILL",
            Verb::Serve => "serve",
        }
    }
}
