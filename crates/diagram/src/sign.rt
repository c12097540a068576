//! The signs of a picture, and their words in the legend.

/// Something that a picture shows.
#[derive(Clone, Copy, PartialEq, Eq)]
pub enum Sign {
    Input,
    Message,
    Number,
    Acknowledgement,
    Output,
    Call,
    Replayed,
    /// A handler call without an end.
    Open,
    Crash,
    Recovery,
    /// A line that replays or restores RSNs.
    Back,
    Sync,
    Saved,
    Trim,
    Lost,
    Copy,
    OnItsWay,
    /// An order that was refused.
    Refused,
}

impl Sign {
    /// All signs, in the order of the legend.
    pub const ALL: [Sign; 18] = [
        Sign::Input,
        Sign::Message,
        Sign::Number,
        Sign::Acknowledgement,
        Sign::Output,
        Sign::Call,
        Sign::Replayed,
        Sign::Open,
        Sign::Crash,
        Sign::Recovery,
        Sign::Back,
        Sign::Sync,
        Sign::Saved,
        Sign::Trim,
        Sign::Lost,
        Sign::Copy,
        Sign::OnItsWay,
        Sign::Refused,
    ];

    /// A sample of the sign, 34 pixels wide.
    pub(crate) fn sample(self) -> &'static str {
        match self {
            Sign::Input => "<use href='#input' x='17' y='0'/>",
            Sign::Message => "<line class='message' x1='0' y1='0' x2='34' y2='0'/>",
            Sign::Number => "<line class='number' x1='0' y1='0' x2='34' y2='0'/>",
            Sign::Acknowledgement => "<line class='ack' x1='0' y1='0' x2='34' y2='0'/>",
            Sign::Output => "<line class='out' x1='0' y1='0' x2='34' y2='0'/>",
            Sign::Call => {
                "<path class='call' d='M34 -8H0V8H34Z'/><text class='j' x='4' y='4'>#1</text>"
            }
            Sign::Replayed => "<path class='again' d='M34 -8H0V8H34Z'/>",
            Sign::Open => "<path class='call' d='M34 -8H0V8H34'/>",
            Sign::Crash => "<use href='#crash' x='17' y='0'/>",
            Sign::Recovery => "<use href='#recover' x='17' y='0'/>",
            Sign::Back => "<line class='back' x1='0' y1='0' x2='34' y2='0'/>",
            Sign::Sync => "<line class='sync' x1='0' y1='0' x2='34' y2='0'/>",
            Sign::Saved => "<use href='#saved' x='17' y='0'/>",
            Sign::Trim => "<use href='#trim' x='17' y='0'/>",
            Sign::Lost => {
                "<line class='message cut' x1='0' y1='0' x2='28' y2='0'/><use href='#lost' x='28' y='0'/>"
            }
            Sign::Copy => {
                "<line class='message cut' x1='0' y1='0' x2='34' y2='0'/><use href='#copy' x='17' y='0'/>"
            }
            Sign::OnItsWay => "<line class='message cut' x1='0' y1='0' x2='34' y2='0'/>",
            Sign::Refused => "<use href='#refused' x='17' y='0'/>",
        }
    }

    /// The words for the sign.
    pub(crate) fn words(self) -> &'static str {
        match self {
            Sign::Input => "input, its feed and first bytes",
            Sign::Message => "message, its SSN and first bytes",
            Sign::Number => "its number (RSN), to its sender",
            Sign::Acknowledgement => "acknowledgement of a number",
            Sign::Output => "output, its SSN and first bytes",
            Sign::Call => "handler call, its job",
            Sign::Replayed => "replayed call",
            Sign::Open => "cut by a crash, or still open",
            Sign::Crash => "crash, its new incarnation",
            Sign::Recovery => "recovery, how many it kept",
            Sign::Back => "replays, or restores numbers",
            Sign::Sync => "numbers from a peer",
            Sign::Saved => "checkpoint, what it covers",
            Sign::Trim => "logs to it are trimmed",
            Sign::Lost => "lost packet",
            Sign::Copy => "a copy, from where it was made",
            Sign::OnItsWay => "still on its way",
            Sign::Refused => "refused order, its line and number",
        }
    }
}
