ghost use Rattle.std.specs.Prelude.{◌≡◌, List, [], ◌∷◌, ◌++◌, if◌then◌else◌, Some, None};
ghost use Rattle.track.specs.Runs.{all_plain, name_ok};
ghost use Rattle.track.specs.Refusals.{number};
ghost use Rattle.track.specs.Answers.{told};
ghost use Rattle.track.specs.Map.{Call, blank, lay_answer};
ghost use Rattle.track.specs.Map.Call.{Lay, Strike, Retime, Name, Open};
ghost use Rattle.track.specs.Calls.{map_of, LeftBy, LayDone, StrikeDone, RetimeDone, NameDone};

use crate::refusal::MapRefusal;
use crate::rig::{GetIn, Layout, Rig, Show};
use crate::run::{MOST_RUNS, MOST_STRAIN, NO_NAME, POINTS, Run, RunTable, WINCHES};
use arrayvec::ArrayVec;
use std::marker::PhantomData;

impl Rig<GetIn> {
    /// A new rig, with no runs and no point named.
    pub fn new() -> Rig<GetIn>
        ensures done { map_of result ≡ blank }
        ensures law { LeftBy [] (map_of result) }
    {
        Rig {
            layout: Layout {
                table: RunTable {
                    runs: ArrayVec::new(),
                },
                names: [NO_NAME; POINTS],
            },
            state: PhantomData,
        }
    }

    /// Lays a run at the end of the map and answers its number.
    ///
    /// Refuses with 1 a tail or head above 127, with 2 a run from a point to itself, with 3 a winch above 15,
    /// with 4 a strain above 100, and with 5 the 257th run.
    // Five operands, as the rules, every clause of this call and its like on tapes and sheets name them: a struct for them would be one more name for the same.
    pub fn lay(
        &mut self,
        tail: u8,
        head: u8,
        winch: u8,
        time: u16,
        strain: u8,
    ) -> Result<u16, MapRefusal>
        ensures done { LayDone (map_of self.old) tail head winch time strain (told number result) (map_of self.new) }
        ensures law { (calls : List Call) → LeftBy calls (map_of self.old) → LeftBy (calls ++ Lay tail head winch time strain ∷ []) (map_of self.new) }
    {
        let number = self.number_for(tail, head, winch, strain)?;
        self.layout.table.runs.push(Run {
            tail,
            head,
            winch,
            time,
            strain,
            struck: false,
        });
        Ok(number)
    }

    /// The number that such a run gets, or the first refusal that applies.
    fn number_for(&self, tail: u8, head: u8, winch: u8, strain: u8) -> Result<u16, MapRefusal>
        ensures { told number result ≡ lay_answer (map_of self.now) tail head winch strain }
    {
        if usize::from(tail) >= POINTS || usize::from(head) >= POINTS {
            return Err(MapRefusal::NoPoint);
        }
        if tail == head {
            return Err(MapRefusal::SamePoint);
        }
        if winch >= WINCHES {
            return Err(MapRefusal::NoWinch);
        }
        if strain > MOST_STRAIN {
            return Err(MapRefusal::StrainTooHigh);
        }
        let laid = self.layout.table.runs.len();
        if laid >= MOST_RUNS {
            return Err(MapRefusal::MapFull);
        }
        Ok(laid as u16)
    }

    /// Strikes a run, which keeps its number.
    ///
    /// Refuses with 6 a run that was not laid, with 7 one that is struck already.
    pub fn strike(&mut self, run: u16) -> Result<(), MapRefusal>
        ensures done { StrikeDone (map_of self.old) run (told number result) (map_of self.new) }
        ensures law { (calls : List Call) → LeftBy calls (map_of self.old) → LeftBy (calls ++ Strike run ∷ []) (map_of self.new) }
    {
        self.layout.table.in_use(run)?.struck = true;
        Ok(())
    }

    /// Alters the time of one run, and nothing else.
    ///
    /// Refuses with 6 a run that was not laid, with 7 one that is struck.
    pub fn retime(&mut self, run: u16, time: u16) -> Result<(), MapRefusal>
        ensures done { RetimeDone (map_of self.old) run time (told number result) (map_of self.new) }
        ensures law { (calls : List Call) → LeftBy calls (map_of self.old) → LeftBy (calls ++ Retime run time ∷ []) (map_of self.new) }
    {
        self.layout.table.in_use(run)?.time = time;
        Ok(())
    }

    /// Names a point.
    ///
    /// Refuses with 1 a point above 127, with 13 a name that is not eight bytes, each from 32 to 126.
    pub fn name(&mut self, point: u8, text: &[u8]) -> Result<(), MapRefusal>
        ensures done { NameDone (map_of self.old) point text.now (told number result) (map_of self.new) }
        ensures law { (calls : List Call) → LeftBy calls (map_of self.old) → LeftBy (calls ++ Name point text.now ∷ []) (map_of self.new) }
    {
        let point = usize::from(point);
        if point >= POINTS {
            return Err(MapRefusal::NoPoint);
        }
        self.layout.names[point] = name_of(text).ok_or(MapRefusal::BadName)?;
        Ok(())
    }

    /// Opens the rig for the show, with the same map.
    pub fn open(self) -> Rig<Show>
        ensures done { map_of result ≡ map_of self }
        ensures law { (calls : List Call) → LeftBy calls (map_of self) → LeftBy (calls ++ Open ∷ []) (map_of result) }
    {
        self.into_state()
    }
}

/// Whether each byte of `text` is one that a name may have.
fn is_plain(text: &[u8]) -> bool
    ensures { result ≡ all_plain text.now }
{
    text.iter().all(|b| (32..=126).contains(b))
}

/// `text` as a name, if it is one.
fn name_of(text: &[u8]) -> Option<[u8; 8]>
    ensures { result ≡ (if name_ok text.now then Some text.now else None) }
{
    let name = <[u8; 8]>::try_from(text).ok()?;
    is_plain(text).then_some(name)
}
