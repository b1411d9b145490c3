ghost use Rattle.std.specs.Prelude.{◌≡◌, ◌<◌, List, [], ◌∷◌, ◌++◌, length};
ghost use Rattle.track.specs.Sizes.{points};
ghost use Rattle.track.specs.Answers.{told};
ghost use Rattle.track.specs.Map.{Call};
ghost use Rattle.track.specs.Map.Call.{Survey};
ghost use Rattle.track.specs.Calls.{map_of, map_after, LeftBy};
ghost use Rattle.routing.specs.Asked.{asked};
ghost use Rattle.routing.specs.Refusals.{number};
ghost use Rattle.routing.specs.Tables.{TableHolds, BoardHolds};
ghost use Rattle.routing.specs.Survey.{survey_answer, SurveyDone};

use crate::board::fill_board;
use crate::place::Place;
use crate::refusal::SearchRefusal;
use crate::search::search;
use crate::task::Task;
use track::rig::{Rig, Show};
use track::run::POINTS;
use walks::kind::CostKind;
use walks::rule::HandoverRule;

/// Surveys an opened rig from `home`: fills the first places of the table, one for each run laid, and the first 128 of the board.
///
/// Refuses with 1 a home above 127, with 8 a table with fewer places than runs were laid, and with 10 a board with fewer than 128.
/// A refused survey leaves table and board as they were.
pub fn survey<K: CostKind, R: HandoverRule>(
    rig: &Rig<Show>,
    kind: &K,
    rule: &R,
    home: u8,
    table: &mut [Place<K::Cost>],
    board: &mut [Place<K::Cost>],
) -> Result<(), SearchRefusal>
    ensures done { SurveyDone (K.CostKind.meaning kind.now) (R.HandoverRule.table rule.now) (map_of rig.now) home table.old board.old (told number result) table.new board.new }
    ensures law { (calls : List Call) → LeftBy calls (map_of rig.now) → SurveyDone (K.CostKind.meaning kind.now) (R.HandoverRule.table rule.now) (map_after calls) home table.old board.old (told number result) table.new board.new × LeftBy (calls ++ Survey ∷ []) (map_of rig.now) }
{
    check_survey(rig, home, table.len(), board.len())?;
    let runs = rig.runs();
    let laid = runs.len();
    let task = Task {
        kind,
        rule,
        runs,
        home,
    };
    survey_runs(&task, &mut table[0..laid], &mut board[0..POINTS]);
    Ok(())
}

/// The first refusal that applies, with so many places in the table and on the board.
fn check_survey(rig: &Rig<Show>, home: u8, places: usize, room: usize) -> Result<(), SearchRefusal>
    ensures { told number result ≡ survey_answer (map_of rig.now) home places room }
{
    if usize::from(home) >= POINTS {
        return Err(SearchRefusal::NoPoint);
    }
    if places < rig.runs().len() {
        return Err(SearchRefusal::TableShort);
    }
    if room < POINTS {
        return Err(SearchRefusal::BoardShort);
    }
    Ok(())
}

/// Fills a table of just the runs and a board of just the points.
fn survey_runs<K: CostKind, R: HandoverRule>(
    task: &Task<K, R>,
    table: &mut [Place<K::Cost>],
    board: &mut [Place<K::Cost>],
)
    requires laid { length table.old ≡ length task.now.runs.now }
    requires room { length board.old ≡ points }
    ensures runs_hold { TableHolds (asked K.CostKind.meaning R.HandoverRule.table task.now) table.new }
    ensures points_hold { BoardHolds (asked K.CostKind.meaning R.HandoverRule.table task.now) table.new board.new }
{
    search(task, table);
    fill_board(task, table, board);
}
