ghost use Rattle.std.specs.Prelude.{◌≡◌, [], ◌∷◌, map, IfOk, OnOk};
ghost use Rattle.track.specs.Map.{Map, after};
ghost use Rattle.track.specs.Calls.{map_of};
ghost use Rattle.desk.specs.Desks.{new_desk};
ghost use Rattle.desk.specs.Asking.{desk_of};
ghost use Rattle.reader.specs.Words.{says, asks};
ghost use Rattle.reader.specs.Sheet.{lines};
ghost use Rattle.reader.specs.Said.{call_of};
ghost use Rattle.sheet.specs.Sheet.{called, sheet_calls};
ghost use Rattle.sheet.specs.Plain.{SheetReadsBack};
ghost use Rattle.sheet.specs.Ruled.{rule_of, ruling_answer, ruled};
ghost use Rattle.sheet.specs.Replies.{desk_in, in_force, told_as, call_reply, Told, left, lefts, AllTold, GoesOn};
ghost use Rattle.sheet.specs.Outcomes.{replied};

use crate::outcomes::{Done, Outcome, Refused};
use desk::rules::Rules;
use reader::rulings::Ruling;
use reader::text::first_line;
use reader::words::{Call, Line, read_line};
use std::alloc::{AllocError, Global};
use tape::command::{Question, RuleName};
use track::rig::{GetIn, Rig};

/// A rig in get-in, and the rules by which it is asked.
#[derive(Drop)]
pub struct Desk {
    pub rig: Rig<GetIn>,
    pub rules: Rules,
}

/// Carries out a call on the rig.
pub fn obey(rig: &mut Rig<GetIn>, call: Call<'_>) -> Outcome
    ensures told { replied result ≡ call_reply (map_of rig.old) (call_of call.entry) }
    ensures after { map_of rig.new ≡ after (map_of rig.old) (call_of call.entry) }
    ensures law { GoesOn (map_of rig.old) (call_of call.entry ∷ []) (map_of rig.new) }
{
    match call {
        Call::Lay {
            tail,
            head,
            winch,
            time,
            strain,
        } => Ok(Done::Laid(rig.lay(tail, head, winch, time, strain)?)),
        Call::Strike { run } => {
            rig.strike(run)?;
            Ok(Done::Struck)
        }
        Call::Retime { run, time } => {
            rig.retime(run, time)?;
            Ok(Done::Retimed)
        }
        Call::Name { point, text } => {
            rig.name(point, text)?;
            Ok(Done::Named)
        }
    }
}

/// Carries out a ruling on the rules.
fn obey_ruling(rules: &mut Rules, ruling: Ruling) -> Outcome
    ensures told { replied result ≡ told_as (λ _. in_force (rule_of ruling)) (ruling_answer ruling) }
    ensures after { (m : Map) → desk_of m rules.new ≡ ruled (desk_of m rules.old) ruling }
{
    let rule = match ruling {
        Ruling::Choose { rule } => rule,
        Ruling::SetFlat { setting } => {
            rules.flat.set(setting);
            RuleName::Flat
        }
        Ruling::SetPoint { point, setting } => {
            rules.point.set(point, setting)?;
            RuleName::Point
        }
        Ruling::SetPair {
            arriving,
            leaving,
            setting,
        } => {
            rules.pair.set(arriving, leaving, setting)?;
            RuleName::Pair
        }
    };
    rules.in_force = rule;
    Ok(Done::InForce(rule))
}

impl Desk {
    /// A new rig, and the rules as they begin.
    pub fn new() -> Desk
        ensures { desk_in result ≡ new_desk }
    {
        Desk {
            rig: Rig::new(),
            rules: Rules::new(),
        }
    }

    /// Asks a route of the rig.
    fn answer(&mut self, question: Question) -> Outcome
        ensures told { Told (desk_in self.old) (asks question) (replied result) }
        ensures same { desk_in self.new ≡ desk_in self.old }
    {
        let route = self.rules.ask_of(&mut self.rig, question)?;
        Ok(Done::Routed {
            kind: question.kind,
            route,
        })
    }

    /// Carries out what a line says.
    pub fn obey_line(&mut self, line: &[u8]) -> Outcome
        ensures told { Told (desk_in self.old) (says line.now) (replied result) }
        ensures after { desk_in self.new ≡ left (desk_in self.old) (says line.now) }
        ensures law { GoesOn (map_of self.old.rig) (called (says line.now)) (map_of self.new.rig) }
    {
        match read_line(line) {
            // A sheet asks no survey.
            None | Some(Line::Survey(_)) => Err(Refused::Unreadable),
            Some(Line::Nothing) => Ok(Done::Silence),
            Some(Line::Call(call)) => obey(&mut self.rig, call),
            Some(Line::Rule(ruling)) => obey_ruling(&mut self.rules, ruling),
            Some(Line::Route(question)) => self.answer(question),
        }
    }

    /// Carries out what each line of a sheet says, and tells what came of each.
    pub fn obey_sheet(&mut self, heap: Global, text: &[u8]) -> Result<Vec<Outcome>, AllocError>
        ensures told { IfOk result (λ v. AllTold (desk_in self.old) (lines text.now) (map replied v.items)) }
        ensures after { OnOk result (desk_in self.new ≡ lefts (desk_in self.old) (lines text.now)) }
        ensures law { OnOk result (GoesOn (map_of self.old.rig) (sheet_calls text.now) (map_of self.new.rig)) }
    {
        let mut outcomes = Vec::new(heap);
        let mut rest = text;
        while let Some((line, more)) = first_line(rest) {
            outcomes.push(self.obey_line(line))?;
            rest = more;
        }
        Ok(outcomes)
    }
}

/// A sheet in plain words makes the calls that its lines say.
pub fn plain_words_read_back()
    ensures { SheetReadsBack }
{
    reader::words::plain_words_read_back()
}

#[cfg(test)]
mod tests {
    use super::*;
    use track::refusal::MapRefusal;

    #[test]
    fn a_name_has_eight_bytes(rt: HostRuntime) {
        let mut desk = Desk::new();
        let seven = desk.obey_line(b"name 3 UPSTAGE");
        assert!(rt; matches!(seven, Err(Refused::Call(MapRefusal::BadName))));
        let eight = desk.obey_line(b"name 3 UPSTAGE ");
        assert!(rt; matches!(eight, Ok(Done::Named)));
        let nine = desk.obey_line(b"name 3 UPSTAGE  ");
        assert!(rt; matches!(nine, Err(Refused::Call(MapRefusal::BadName))));
    }

    fn is_call(line: &[u8]) -> bool {
        matches!(read_line(line), Some(Line::Call(_)))
    }

    #[test]
    fn numbers_end_at_their_limits(rt: HostRuntime) {
        assert!(rt; is_call(b"lay 255 255 255 65535 255"));
        assert!(rt; !is_call(b"lay 256 0 0 0 0"));
        assert!(rt; !is_call(b"lay 0 256 0 0 0"));
        assert!(rt; !is_call(b"lay 0 0 256 0 0"));
        assert!(rt; !is_call(b"lay 0 0 0 65536 0"));
        assert!(rt; !is_call(b"lay 0 0 0 0 256"));
        assert!(rt; is_call(b"retime 65535 65535"));
        assert!(rt; !is_call(b"retime 65536 0"));
        assert!(rt; !is_call(b"retime 0 65536"));
        assert!(rt; is_call(b"strike 00065535"));
        assert!(rt; !is_call(b"strike 65536"));
        assert!(rt; is_call(b"name 255 "));
        assert!(rt; !is_call(b"name 256 "));
    }
}
