ghost use Rattle.std.specs.Prelude.{◌<◌, ◌≤◌, length};
ghost use Rattle.track.specs.Sizes.{points, most_runs};
ghost use Rattle.routing.specs.Heads.{HeadsBelow};

use track::run::Run;

// The table stays beside it: a struct that held the loan of it would have each function say that it holds the same one still.
/// What is asked: by which kind of cost and hand-over rule, over which runs, from which home.
#[derive(Drop)]
pub(crate) struct Task<'a, 'b, K, R> {
    pub(crate) kind: &'a K,
    pub(crate) rule: &'a R,
    pub(crate) runs: &'b [Run],
    pub(crate) home: u8,
    ghost few: { length runs.now ≤ most_runs },
    ghost heads: { HeadsBelow runs.now points },
    ghost within: { home < points },
}
