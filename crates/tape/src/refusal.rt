ghost use Rattle.std.specs.Prelude.{◌≡◌};
ghost use Rattle.tape.specs.Refusals.{number, cause_number};

/// Why a tape was not written.
#[derive(Clone, Copy, Drop, PartialEq, Eq, Debug)]
pub enum WriteRefusal {
    /// The buffer is shorter than the tape.
    BufferShort = 17,
}

impl From<WriteRefusal> for u8 {
    ghost from_gives = { λ refusal n. n ≡ number refusal };

    /// The number by which the refusal is told.
    fn from(refusal: WriteRefusal) -> u8 {
        refusal as u8
    }
}

/// Why a command could not be read.
#[derive(Clone, Copy, Drop, PartialEq, Eq, Debug)]
pub enum TapeCause {
    /// The byte is no command.
    UnknownCommand = 14,
    /// The tape ends inside a command.
    TapeEnds = 15,
    /// The letter names no kind, or no rule.
    UnknownLetter = 16,
}

impl From<TapeCause> for u8 {
    ghost from_gives = { λ cause n. n ≡ cause_number cause };

    /// The number by which the cause is told.
    fn from(cause: TapeCause) -> u8 {
        cause as u8
    }
}
