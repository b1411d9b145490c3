ghost use Rattle.std.specs.Prelude.{◌≡◌, ◌≤◌, [], length, OnErr};
ghost use Rattle.track.specs.Calls.{map_of};
ghost use Rattle.desk.specs.Asking.{desk_of, told_route, told_in, AskDone};

use crate::by_name::ByName;
use crate::rules::Rules;
use arrayvec::ArrayVec;
use routing::place::Place;
use routing::refusal::SearchRefusal;
use routing::route::route;
use std::mem;
use tape::command::Question;
use track::rig::{GetIn, Rig, Show};
use track::run::MOST_RUNS;

/// Up to so many runs a question is asked on a table for these alone: on a small rig, to clear one for every run would take longer than the search.
const FEW_RUNS: usize = 32;

/// A route that was found: what it costs, and its runs in hauling order.
#[derive(Clone, Drop)]
pub struct Route {
    pub cost: u64,
    pub runs: ArrayVec<u16, MOST_RUNS>,
}

impl Route {
    /// A place for a route, with no runs in it yet.
    pub fn new() -> Route
        ensures { (result.cost ≡ 0) × (result.runs.items ≡ []) }
    {
        Route {
            cost: 0,
            runs: ArrayVec::new(),
        }
    }
}

impl Rules {
    /// The route that is asked for, by the rule in force.
    ///
    /// Refuses with 1 a home or a mark above 127, and with 11 where there is no way.
    pub fn ask(&self, show: &Rig<Show>, question: Question) -> Result<Route, SearchRefusal>
        ensures { AskDone (desk_of (map_of show.now) self.now) question.kind question.home question.mark (told_route result) }
    {
        let mut route = Route::new();
        self.ask_into(show, question, &mut route)?;
        Ok(route)
    }

    /// The same, written over `route`.
    ///
    /// Refuses as `ask` does; `route` is then as it was.
    pub fn ask_into(
        &self,
        show: &Rig<Show>,
        question: Question,
        route: &mut Route,
    ) -> Result<(), SearchRefusal>
        ensures done { AskDone (desk_of (map_of show.now) self.now) question.kind question.home question.mark (told_in result route.new) }
        ensures kept { OnErr result (route.new ≡ route.old) }
    {
        if show.runs().len() <= FEW_RUNS {
            self.ask_on(show, question, &mut [None; FEW_RUNS], route)
        } else {
            self.ask_on(show, question, &mut [None; MOST_RUNS], route)
        }
    }

    /// The same on a work table that has room for the runs laid.
    fn ask_on(
        &self,
        show: &Rig<Show>,
        question: Question,
        table: &mut [Place<u64>],
        found: &mut Route,
    ) -> Result<(), SearchRefusal>
        requires { length (map_of show.now).runs ≤ length table.old }
        ensures done { AskDone (desk_of (map_of show.now) self.now) question.kind question.home question.mark (told_in result found.new) }
        ensures kept { OnErr result (found.new ≡ found.old) }
    {
        let Question { kind, home, mark } = question;
        let mut list = [0u16; MOST_RUNS];
        let (count, cost) = route(show, &ByName(kind), self, home, mark, table, &mut list)?;
        found.cost = cost;
        found.runs.clear();
        // There is room for every run that can be laid.
        let _ = found.runs.try_extend_from_slice(&list[..count]);
        Ok(())
    }

    /// Opens a rig, asks the route of it, and closes it again.
    ///
    /// Refuses as `ask` does. The rig has the map that it had.
    pub fn ask_of(&self, rig: &mut Rig<GetIn>, question: Question) -> Result<Route, SearchRefusal>
        ensures done { AskDone (desk_of (map_of rig.old) self.now) question.kind question.home question.mark (told_route result) }
        ensures same { map_of rig.new ≡ map_of rig.old }
    {
        let mut route = Route::new();
        self.ask_of_into(rig, question, &mut route)?;
        Ok(route)
    }

    /// The same, written over `route`.
    ///
    /// Refuses as `ask` does; `route` is then as it was. The rig has the map that it had.
    pub fn ask_of_into(
        &self,
        rig: &mut Rig<GetIn>,
        question: Question,
        route: &mut Route,
    ) -> Result<(), SearchRefusal>
        ensures done { AskDone (desk_of (map_of rig.old) self.now) question.kind question.home question.mark (told_in result route.new) }
        ensures same { map_of rig.new ≡ map_of rig.old }
        ensures kept { OnErr result (route.new ≡ route.old) }
    {
        let show = mem::replace(rig, Rig::new()).open();
        let answer = self.ask_into(&show, question, route);
        *rig = show.close();
        answer
    }
}
