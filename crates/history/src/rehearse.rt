ghost use Rattle.std.specs.Prelude.{[], ◌∷◌};
ghost use Rattle.track.specs.Answers.{told};
ghost use Rattle.track.specs.Refusals.{number as map_number};
ghost use Rattle.track.specs.Map.{blank};
ghost use Rattle.track.specs.History.{State, get_in, Laid, Struck, Opened, Closed};
ghost use Rattle.routing.specs.Refusals.{number as search_number};
ghost use Rattle.history.specs.Events.{OnMap, Surveyed, Routed, Happened};

use routing::place::Place;
use routing::refusal::SearchRefusal;
use routing::route::route;
use routing::survey::survey;
use track::refusal::MapRefusal;
use track::rig::Rig;
use walks::kind::CostKind;
use walks::rule::HandoverRule;

/// What the calls of a rehearsal answered, in turn.
#[derive(Drop)]
pub struct Outcomes<C> {
    pub laid: Result<u16, MapRefusal>,
    pub looped: Result<u16, MapRefusal>,
    pub joined: Result<u16, MapRefusal>,
    pub routed: Result<(usize, C), SearchRefusal>,
    pub surveyed: Result<(), SearchRefusal>,
    pub struck: Result<(), MapRefusal>,
    pub again: Result<(usize, C), SearchRefusal>,
}

/// Makes real calls on one rig: lays two runs and one that is refused, opens the rig, asks a route by one kind of cost and
/// a survey by another, closes it, strikes a run, opens it again and asks the same route.
///
/// Its contract says that these events happened to a rig that began new, so the theorem on lists of calls speaks of them.
pub fn rehearse<K: CostKind, J: CostKind, R: HandoverRule>(
    kind: &K,
    other: &J,
    rule: &R,
    table: &mut [Place<K::Cost>],
    list: &mut [u16],
    spare: &mut [Place<J::Cost>],
    board: &mut [Place<J::Cost>],
    table_again: &mut [Place<K::Cost>],
    list_again: &mut [u16],
) -> Outcomes<K::Cost>
    ensures { (z : State) × Happened (get_in blank) (
        OnMap (Laid 0 1 0 30 40 (told map_number result.laid))
        ∷ OnMap (Laid 5 5 0 1 1 (told map_number result.looped))
        ∷ OnMap (Laid 1 2 1 50 60 (told map_number result.joined))
        ∷ OnMap Opened
        ∷ Routed (K.CostKind.meaning kind.now) (R.HandoverRule.table rule.now) 0 2 table.old list.old (told search_number result.routed) table.new list.new
        ∷ Surveyed (J.CostKind.meaning other.now) (R.HandoverRule.table rule.now) 0 spare.old board.old (told search_number result.surveyed) spare.new board.new
        ∷ OnMap Closed
        ∷ OnMap (Struck 1 (told map_number result.struck))
        ∷ OnMap Opened
        ∷ Routed (K.CostKind.meaning kind.now) (R.HandoverRule.table rule.now) 0 2 table_again.old list_again.old (told search_number result.again) table_again.new list_again.new
        ∷ OnMap Closed
        ∷ []) z }
{
    let mut rig = Rig::new();
    let laid = rig.lay(0, 1, 0, 30, 40);
    let looped = rig.lay(5, 5, 0, 1, 1);
    let joined = rig.lay(1, 2, 1, 50, 60);
    let show = rig.open();
    let routed = route(&show, kind, rule, 0, 2, table, list);
    let surveyed = survey(&show, other, rule, 0, spare, board);
    let mut half = show.close();
    let struck = half.strike(1);
    let second = half.open();
    let again = route(&second, kind, rule, 0, 2, table_again, list_again);
    let _ = second.close();
    Outcomes {
        laid,
        looped,
        joined,
        routed,
        surveyed,
        struck,
        again,
    }
}
