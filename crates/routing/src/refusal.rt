ghost use Rattle.std.specs.Prelude.{◌≡◌, Some};
ghost use Rattle.routing.specs.Refusals.{number as number_of, reason};

use std::fmt;

/// Why a survey or a route was refused, with the number by which it is told.
#[derive(Clone, Copy, Drop, PartialEq, Eq, Debug)]
pub enum SearchRefusal {
    /// A home or a mark above 127.
    NoPoint = 1,
    /// The work table has fewer places than runs were laid.
    TableShort = 8,
    /// The list has fewer places than runs were laid.
    ListShort = 9,
    /// The board has fewer than 128 places.
    BoardShort = 10,
    /// No legal walk leads from the home to the mark.
    NoWay = 11,
}

impl From<SearchRefusal> for u8 {
    ghost from_gives = { λ refusal n. n ≡ number_of refusal };

    fn from(refusal: SearchRefusal) -> u8 {
        refusal as u8
    }
}

impl fmt::Display for SearchRefusal {
    ghost output = { λ refusal. Some (reason refusal) };

    fn fmt<W: fmt::Write>(&self, f: &mut fmt::Formatter<W>) -> fmt::Result {
        f.write_str(match self {
            SearchRefusal::NoPoint => "point above 127",
            SearchRefusal::TableShort => "work table too short",
            SearchRefusal::ListShort => "list too short",
            SearchRefusal::BoardShort => "board too short",
            SearchRefusal::NoWay => "no way",
        })
    }
}
