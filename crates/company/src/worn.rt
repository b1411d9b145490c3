ghost use Rattle.track.specs.Calls.{map_of};
ghost use Rattle.walks.specs.Cheapest.{task};
ghost use Rattle.walks.specs.Settings.{flat_rule};
ghost use Rattle.walks.specs.Prices.{Priced};
ghost use Rattle.track.specs.Answers.{told};
ghost use Rattle.routing.specs.Refusals.{number};
ghost use Rattle.routing.specs.Route.{RouteDone};
ghost use Rattle.company.specs.Own.{isolated, wear_kind};

use crate::isolated::Isolated;
use crate::wear::Wear;
use routing::place::Place;
use routing::refusal::SearchRefusal;
use routing::route::route;
use track::rig::{Rig, Show};
use walks::flat::Flat;
use walks::walk::walk_cost;

/// What the walk wears the ropes while one winch is kept to itself, or `None` where it is then no legal walk from `home` to `mark`.
pub fn wear_without(rig: &Rig<Show>, winch: u8, home: u8, mark: u8, walk: &[u16]) -> Option<u64>
    ensures { Priced (task wear_kind (isolated (flat_rule 0) winch) (map_of rig.now).runs home) mark walk.now result }
{
    let rule = Isolated {
        rule: Flat::new(),
        winch,
    };
    walk_cost(&Wear, &rule, rig.runs(), home, mark, walk)
}

/// The walk from `home` to `mark` that wears the ropes least while one winch is kept to itself: how many runs it has, and what it wears.
/// Its runs stand at the beginning of `list`.
///
/// Refuses as any route does: with 1 a home or a mark above 127, with 8 and 9 a table or a list too short, with 11 where there is no way.
pub fn least_worn(
    rig: &Rig<Show>,
    winch: u8,
    home: u8,
    mark: u8,
    table: &mut [Place<u64>],
    list: &mut [u16],
) -> Result<(usize, u64), SearchRefusal>
    ensures { RouteDone wear_kind (isolated (flat_rule 0) winch) (map_of rig.now) home mark table.old list.old (told number result) table.new list.new }
{
    let rule = Isolated {
        rule: Flat::new(),
        winch,
    };
    route(rig, &Wear, &rule, home, mark, table, list)
}

#[cfg(test)]
mod tests {
    use super::*;
    use std::test::Fail;
    use track::rig::{Rig, Show};

    #[test]
    fn a_winch_kept_to_itself_hands_nothing_over(rt: HostRuntime) -> Result<(), Fail> {
        let mut rig = Rig::new();
        rig.lay(0, 1, 0, 30, 40)?;
        rig.lay(0, 2, 1, 20, 70)?;
        rig.lay(2, 1, 1, 20, 20)?;
        rig.lay(1, 3, 1, 50, 60)?;
        let rig = rig.open();
        assert_eq!(rt; wear_without(&rig, 7, 0, 3, &[0, 3]), Some(4200));
        assert_eq!(rt; wear_without(&rig, 1, 0, 3, &[0, 3]), None);
        assert_eq!(rt; wear_without(&rig, 1, 0, 3, &[1, 2, 3]), Some(4800));
        let mut table = [None; 4];
        let mut list = [9; 4];
        assert_eq!(rt;
            least_worn(&rig, 7, 0, 3, &mut table, &mut list)?,
            (2, 4200)
        );
        assert_eq!(rt; list, [0, 3, 9, 9]);
        assert_eq!(rt;
            least_worn(&rig, 1, 0, 3, &mut table, &mut list)?,
            (3, 4800)
        );
        assert_eq!(rt; list, [1, 2, 3, 9]);
        Ok(())
    }
}
