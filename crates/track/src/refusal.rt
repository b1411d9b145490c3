ghost use Rattle.std.specs.Prelude.{◌≡◌, Some};
ghost use Rattle.track.specs.Refusals.{number as number_of, reason};

use std::fmt;

/// Why a call on the map was refused, with the number by which it is told.
#[derive(Clone, Copy, PartialEq, Eq, Debug)]
pub enum MapRefusal {
    /// A point above 127.
    NoPoint = 1,
    /// A run from a point to itself.
    SamePoint = 2,
    /// A winch above 15.
    NoWinch = 3,
    /// A strain above 100 percent.
    StrainTooHigh = 4,
    /// All 256 runs have been laid.
    MapFull = 5,
    /// No run of that number was laid.
    NoRun = 6,
    /// The run is struck.
    RunStruck = 7,
    /// A name that is not eight bytes, each from 32 to 126.
    BadName = 13,
}

impl From<MapRefusal> for u8 {
    ghost from_gives = { λ refusal n. n ≡ number_of refusal };

    fn from(refusal: MapRefusal) -> u8 {
        refusal as u8
    }
}

impl fmt::Display for MapRefusal {
    ghost output = { λ refusal. Some (reason refusal) };

    fn fmt<W: fmt::Write>(&self, f: &mut fmt::Formatter<W>) -> fmt::Result {
        f.write_str(match self {
            MapRefusal::NoPoint => "point above 127",
            MapRefusal::SamePoint => "tail and head are the same point",
            MapRefusal::NoWinch => "winch above 15",
            MapRefusal::StrainTooHigh => "strain above 100",
            MapRefusal::MapFull => "256 runs have been laid",
            MapRefusal::NoRun => "no such run",
            MapRefusal::RunStruck => "run is struck",
            MapRefusal::BadName => "a name is eight bytes from 32 to 126",
        })
    }
}
