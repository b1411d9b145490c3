ghost use Rattle.std.specs.Prelude.{◌≡◌};
ghost use Rattle.track.specs.Calls.{map_of};
ghost use Rattle.tape.specs.Commands.{said, ask};
ghost use Rattle.desk.specs.Desks.{new_desk};
ghost use Rattle.player.specs.Play.{step};
ghost use Rattle.player.specs.Obeying.{desk_in, told_turn, Obeyed};

use crate::fault::Layer;
use crate::listing::{LINE, write_line};
use arrayvec::ArrayString;
use desk::ask::Route;
use desk::rules::Rules;
use routing::refusal::SearchRefusal;
use tape::command::{Command, Question};
use track::rig::{GetIn, Rig};

/// What a play keeps: the rig in get-in, and the rules; and the room in which it finds a route and writes a line, which says nothing between two commands.
#[derive(Drop)]
pub(crate) struct Desk {
    rig: Rig<GetIn>,
    rules: Rules,
    // Kept, since to clear them for each question would take longer than the search on a small rig.
    route: Route,
    line: ArrayString<LINE>,
}

impl Desk {
    /// A new rig and new rules.
    pub(crate) fn new() -> Desk
        ensures { desk_in result ≡ new_desk }
    {
        Desk {
            rig: Rig::new(),
            rules: Rules::new(),
            route: Route::new(),
            line: ArrayString::new(),
        }
    }

    /// The rig as the commands made it.
    pub(crate) fn into_rig(self) -> Rig<GetIn>
        ensures { map_of result ≡ (desk_in self).map }
    {
        let Desk {
            rig,
            rules: _,
            route: _,
            line: _,
        } = self;
        rig
    }

    /// Does what a command says, writes the line of a question at the beginning of `rest`, and answers the line's length.
    pub(crate) fn obey(&mut self, command: Command<'_>, rest: &mut [u8]) -> Result<usize, Layer>
        ensures { Obeyed (step (desk_in self.old) (said command.entry)) (desk_in self.old) rest.old (told_turn result) (desk_in self.new) rest.new }
    {
        match command {
            Command::Lay {
                tail,
                head,
                winch,
                time,
                strain,
            } => {
                self.rig.lay(tail, head, winch, time, strain)?;
            }
            Command::Strike { run } => self.rig.strike(u16::from(run))?,
            Command::Retime { run, time } => self.rig.retime(u16::from(run), time)?,
            Command::Name { point, text } => self.rig.name(point, text)?,
            Command::SetFlat { setting } => self.rules.flat.set(setting),
            Command::SetPoint { point, setting } => self.rules.point.set(point, setting)?,
            Command::SetPair {
                arriving,
                leaving,
                setting,
            } => self.rules.pair.set(arriving, leaving, setting)?,
            Command::UseRule { rule } => self.rules.in_force = rule,
            Command::Ask { kind, home, mark } => {
                let question = Question { kind, home, mark };
                return self.answer(question, rest);
            }
        }
        Ok(0)
    }

    /// Asks a route and writes its line. That there is no way is an answer, and no fault.
    fn answer(&mut self, question: Question, rest: &mut [u8]) -> Result<usize, Layer>
        ensures { Obeyed (step (desk_in self.old) (ask question.kind question.home question.mark)) (desk_in self.old) rest.old (told_turn result) (desk_in self.new) rest.new }
    {
        let line = &mut self.line;
        let rules = &self.rules;
        match rules.ask_of_into(&mut self.rig, question, &mut self.route) {
            Ok(()) => Ok(write_line(line, rest, question, Some(&self.route))?),
            Err(SearchRefusal::NoWay) => Ok(write_line(line, rest, question, None)?),
            Err(refusal) => Err(Layer::Search(refusal)),
        }
    }
}
