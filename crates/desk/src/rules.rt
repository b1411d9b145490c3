ghost use Rattle.std.specs.Prelude.{◌≡◌};
ghost use Rattle.track.specs.Map.{blank};
ghost use Rattle.desk.specs.Desks.{new_desk};
ghost use Rattle.desk.specs.Asking.{desk_of, rule_in_force};
ghost use Rattle.std.proofs.Common.{rules};

use tape::command::RuleName;
use walks::by_pair::ByPair;
use walks::by_point::ByPoint;
use walks::flat::Flat;
use walks::rule::HandoverRule;

/// The three rules with their settings, and the one in force. As a rule it is the one in force.
#[derive(Clone, Copy, Drop)]
pub struct Rules {
    pub flat: Flat,
    pub point: ByPoint,
    pub pair: ByPair,
    /// The rule by which questions are judged.
    pub in_force: RuleName,
}

impl Rules {
    /// The rules as they begin: every setting is 0, and the flat rule is in force.
    pub fn new() -> Rules
        ensures { desk_of blank result ≡ new_desk }
    {
        Rules {
            flat: Flat::new(),
            point: ByPoint::new(),
            pair: ByPair::new(),
            in_force: RuleName::Flat,
        }
    }
}

impl HandoverRule for Rules {
    ghost table = { rule_in_force };

    ghost sound = { Prim.search rules };

    fn ask(&self, point: u8, arriving: u8, leaving: u8) -> Option<u16> {
        match self.in_force {
            RuleName::Flat => self.flat.ask(point, arriving, leaving),
            RuleName::Point => self.point.ask(point, arriving, leaving),
            RuleName::Pair => self.pair.ask(point, arriving, leaving),
        }
    }
}
