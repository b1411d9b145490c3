ghost use Rattle.std.specs.Prelude.{◌≡◌, ℕ, ◌<◌, [], length, replicate, slice_index_or};
ghost use Rattle.track.specs.Sizes.{winches};
ghost use Rattle.track.specs.Answers.{told};
ghost use Rattle.walks.specs.Refusals.{number};
ghost use Rattle.walks.specs.Settings.{pair_rule, pair_answer, pair_after, MovedAt, at_pair};
ghost use Rattle.std.proofs.Common.{rules, arith};

use crate::refusal::RuleRefusal;
use crate::rule::HandoverRule;
use crate::setting::answer;
use track::run::WINCHES;

const ROW: usize = WINCHES as usize;

/// One setting for each ordered pair of different winches, the arriving one and the leaving one.
#[derive(Clone, Copy, Drop)]
pub struct ByPair {
    settings: [[u16; ROW]; ROW],
    ghost rows: { (a : ℕ) → a < winches → length (slice_index_or settings a []) ≡ winches },
}

impl ByPair {
    /// The rule as it begins: every setting is 0.
    pub fn new() -> ByPair
        ensures { result.settings ≡ replicate winches (replicate winches 0) }
    {
        ByPair {
            settings: [[0; ROW]; ROW],
        }
    }

    /// Sets the penalty of the joints from the winch `arriving` to the winch `leaving`; 65,535 bars them.
    ///
    /// Refuses with 3 a winch above 15, with 12 the same winch twice.
    pub fn set(&mut self, arriving: u8, leaving: u8, setting: u16) -> Result<(), RuleRefusal>
        ensures answer { told number result ≡ pair_answer arriving leaving }
        ensures settings { self.new.settings ≡ pair_after self.old.settings arriving leaving setting }
        ensures table { MovedAt (at_pair arriving leaving) setting (pair_rule self.old.settings) (pair_rule self.new.settings) }
    {
        if arriving >= WINCHES || leaving >= WINCHES {
            return Err(RuleRefusal::NoWinch);
        }
        if arriving == leaving {
            return Err(RuleRefusal::SameWinch);
        }
        self.settings[usize::from(arriving)][usize::from(leaving)] = setting;
        Ok(())
    }
}

impl HandoverRule for ByPair {
    ghost table = { λ t. pair_rule t.settings };

    ghost sound = { first_of (Prim.search rules, Prim.grind (arith, Self.row.coded.inj)) };

    fn ask(&self, point: u8, arriving: u8, leaving: u8) -> Option<u16> {
        let row = self.settings.get(usize::from(arriving))?;
        let setting = row.get(usize::from(leaving))?;
        answer(*setting, point, arriving, leaving)
    }
}
