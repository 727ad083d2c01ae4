//! What can be wrong with a line, and why a line has no answer of its own.
ghost use Rattle.std.specs.Prelude.{◌≡◌};
ghost use Rattle.descriptor_lines.specs.Fault.{words_of_fault};
ghost use Rattle.descriptor_lines.specs.declared.words.fault.Refusal.TheVariants.{Fault as IsFault};
ghost use Rattle.descriptor_lines.specs.declared.words.fault.Refusal.TheVariants.{NoMemory};

use std::alloc::AllocError;

/// What is wrong with a line.
#[derive(Clone, Copy, Debug, PartialEq, Eq)]
pub enum Fault {
    LineTooLong,
    UnknownCommand,
    LimitNotFirst,
    BadWordCount,
    BadName,
    NameIsTaken,
    NoSuchLayout,
    BadMark,
    BadKind,
    KindTwice,

    /// No number, one above the greatest of its place, or a range with two `-`.
    BadNumber,
    BadAnswerWord,
    TooManyTickets,
    TooManyLayouts,
}

impl Fault {
    /// What the output says of the fault.
    pub fn words(&self) -> &'static str
        ensures { result.now ≡ words_of_fault self.now }
    {
        match self {
            Fault::LineTooLong => "line too long",
            Fault::UnknownCommand => "unknown command",
            Fault::LimitNotFirst => "limit must come first",
            Fault::BadWordCount => "bad word count",
            Fault::BadName => "bad name",
            Fault::NameIsTaken => "name is taken",
            Fault::NoSuchLayout => "no such layout",
            Fault::BadMark => "bad mark",
            Fault::BadKind => "bad kind",
            Fault::KindTwice => "kind twice",
            Fault::BadNumber => "bad number",
            Fault::BadAnswerWord => "bad answer word",
            Fault::TooManyTickets => "too many tickets",
            Fault::TooManyLayouts => "too many layouts",
        }
    }
}

/// Why a line has no answer of its own. It then changed nothing.
#[derive(Clone, Copy, Debug, PartialEq, Eq)]
pub enum Refusal {
    /// The line is faulty.
    Fault(Fault),

    /// There was no memory to run it.
    NoMemory,
}

impl From<Fault> for Refusal {
    ghost from_gives = { λ fault refusal. refusal ≡ IsFault fault };

    fn from(fault: Fault) -> Self {
        Refusal::Fault(fault)
    }
}

impl From<AllocError> for Refusal {
    ghost from_gives = { λ _ refusal. refusal ≡ NoMemory };

    fn from(_error: AllocError) -> Self {
        Refusal::NoMemory
    }
}
