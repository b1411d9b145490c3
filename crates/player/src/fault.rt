ghost use Rattle.std.specs.Prelude.{◌≡◌, Some};
ghost use Rattle.player.specs.Faults.{layer_number, layer_name, word as word_of, listing_number, told_fault, fault_text};
ghost use Rattle.player.specs.declared.fault.Layer.TheVariants.{Tape, Map, Rule, Search, Listing};

use routing::refusal::SearchRefusal;
use std::fmt;
use tape::refusal::TapeCause;
use track::refusal::MapRefusal;
use walks::refusal::RuleRefusal;

/// Why a line was not written.
#[derive(Clone, Copy, Drop, PartialEq, Eq, Debug)]
pub enum ListingCause {
    /// The line does not fit into what is left of the listing buffer.
    NoRoom = 18,
}

impl From<ListingCause> for u8 {
    ghost from_gives = { λ cause n. n ≡ listing_number cause };

    /// The number by which the cause is told.
    fn from(cause: ListingCause) -> u8 {
        cause as u8
    }
}

/// The layer at which a tape faulted, with that layer's own cause.
#[derive(Clone, Copy, Drop, PartialEq, Eq, Debug)]
pub enum Layer {
    /// The command could not be read.
    Tape(TapeCause),
    /// `R`, `X`, `T` or `N` was refused.
    Map(MapRefusal),
    /// `P` or `M` was refused.
    Rule(RuleRefusal),
    /// `Q` was refused.
    Search(SearchRefusal),
    /// The line of a `Q` does not fit.
    Listing(ListingCause),
}

impl From<Layer> for u8 {
    ghost from_gives = { λ layer n. n ≡ layer_number layer };

    /// The number of the fault: 14 to 16 of the tape, 18 of the listing, else that of the call's refusal.
    fn from(layer: Layer) -> u8 {
        match layer {
            Layer::Tape(cause) => u8::from(cause),
            Layer::Map(cause) => u8::from(cause),
            Layer::Rule(cause) => u8::from(cause),
            Layer::Search(cause) => u8::from(cause),
            Layer::Listing(cause) => u8::from(cause),
        }
    }
}

impl Layer {
    /// The word by which the layer is told.
    pub fn word(self) -> &'static str
        ensures { result.now ≡ word_of (layer_name self) }
    {
        match self {
            Layer::Tape(_) => "tape",
            Layer::Map(_) => "map",
            Layer::Rule(_) => "rule",
            Layer::Search(_) => "search",
            Layer::Listing(_) => "listing",
        }
    }
}

impl fmt::Display for Layer {
    ghost output = { λ layer. Some (word_of (layer_name layer)) };

    fn fmt<W: fmt::Write>(&self, f: &mut fmt::Formatter<W>) -> fmt::Result {
        f.write_str(self.word())
    }
}

impl From<TapeCause> for Layer {
    ghost from_gives = { λ cause layer. layer ≡ Tape cause };

    fn from(cause: TapeCause) -> Layer {
        Layer::Tape(cause)
    }
}

impl From<MapRefusal> for Layer {
    ghost from_gives = { λ cause layer. layer ≡ Map cause };

    fn from(cause: MapRefusal) -> Layer {
        Layer::Map(cause)
    }
}

impl From<RuleRefusal> for Layer {
    ghost from_gives = { λ cause layer. layer ≡ Rule cause };

    fn from(cause: RuleRefusal) -> Layer {
        Layer::Rule(cause)
    }
}

impl From<SearchRefusal> for Layer {
    ghost from_gives = { λ cause layer. layer ≡ Search cause };

    fn from(cause: SearchRefusal) -> Layer {
        Layer::Search(cause)
    }
}

impl From<ListingCause> for Layer {
    ghost from_gives = { λ cause layer. layer ≡ Listing cause };

    fn from(cause: ListingCause) -> Layer {
        Layer::Listing(cause)
    }
}

/// The fault that ended a play.
#[derive(Clone, Copy, Drop, PartialEq, Eq, Debug)]
pub struct Fault {
    /// Where its command's first byte stands on the tape, counted from 0.
    pub place: usize,
    pub layer: Layer,
}

impl fmt::Display for Fault {
    ghost output = { λ fault. Some (fault_text (told_fault fault)) };

    fn fmt<W: fmt::Write>(&self, f: &mut fmt::Formatter<W>) -> fmt::Result {
        let Fault { place, layer } = *self;
        let number = u8::from(layer);
        write!(f, "fault {number} at {place} in {layer}")
    }
}
