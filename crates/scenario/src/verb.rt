//! The words of orders.

ghost use Rattle.std.specs.Prelude.{◌≡◌, ◌≢◌, MatchOption};
ghost use Rattle.std.specs.List.{AllByRecursion};
ghost use Rattle.scenario.specs.Order.{verb_text};
ghost use Rattle.scenario.specs.Inside.Reads.{ReadsVerb};

/// The kind of an order: the first word of its line.
#[derive(Clone, Copy, PartialEq, Eq)]
pub enum Verb {
    Input,
    Bytes,
    Transmit,
    Copy,
    Lose,
    Arrive,
    Finish,
    Checkpoint,
    Trim,
    Crash,
    Recover,
    Alone,
    Replay,
    Resync,
    Drive,
}

/// Every kind once.
pub const VERBS: [Verb; 15] = [
    Verb::Input,
    Verb::Bytes,
    Verb::Transmit,
    Verb::Copy,
    Verb::Lose,
    Verb::Arrive,
    Verb::Finish,
    Verb::Checkpoint,
    Verb::Trim,
    Verb::Crash,
    Verb::Recover,
    Verb::Alone,
    Verb::Replay,
    Verb::Resync,
    Verb::Drive,
];

impl Verb {
    /// Its word.
    pub fn word(self) -> &'static str
        ensures { result.now ≡ verb_text self }
    {
        match self {
            Verb::Input => "input",
            Verb::Bytes => "bytes",
            Verb::Transmit => "transmit",
            Verb::Copy => "copy",
            Verb::Lose => "lose",
            Verb::Arrive => "arrive",
            Verb::Finish => "finish",
            Verb::Checkpoint => "checkpoint",
            Verb::Trim => "trim",
            Verb::Crash => "crash",
            Verb::Recover => "recover",
            Verb::Alone => "alone",
            Verb::Replay => "replay",
            Verb::Resync => "resync",
            Verb::Drive => "drive",
        }
    }
}

/// The kind of order with this word.
#[tactic(auto, using(crate::proofs::Orders::every_verb))]
pub fn verb_named(word: &str) -> Option<Verb>
    ensures { ReadsVerb word.now result }
{
    first_named(&VERBS, word)
}

/// The first of these kinds with this word.
fn first_named(all: &[Verb], word: &str) -> Option<Verb>
    ensures { MatchOption result (AllByRecursion (λ v. word.now ≢ verb_text v) all.now) (λ v. word.now ≡ verb_text v) }
{
    for verb in all {
        if verb.word() == word {
            return Some(*verb);
        }
    }
    None
}
