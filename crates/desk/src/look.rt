ghost use Rattle.track.specs.Answers.{told};
ghost use Rattle.track.specs.Calls.{map_of};
ghost use Rattle.routing.specs.Refusals.{number};
ghost use Rattle.desk.specs.Asking.{desk_of};
ghost use Rattle.desk.specs.Looking.{LookDone};

use crate::by_name::ByName;
use crate::rules::Rules;
use routing::place::Place;
use routing::refusal::SearchRefusal;
use routing::survey::survey;
use tape::command::KindName;
use track::rig::{Rig, Show};
use track::run::{MOST_RUNS, POINTS};

impl Rules {
    /// Surveys an opened rig from `home` by the kind of this name and the rule in force: fills the board, a place for each point.
    ///
    /// Refuses with 1 a home above 127; the board is then as it was.
    pub fn look(
        &self,
        show: &Rig<Show>,
        kind: KindName,
        home: u8,
        board: &mut [Place<u64>; POINTS],
    ) -> Result<(), SearchRefusal>
        ensures { LookDone (desk_of (map_of show.now) self.now) kind home board.old (told number result) board.new }
    {
        let mut table = [None; MOST_RUNS];
        survey(show, &ByName(kind), self, home, &mut table, board)
    }
}
