ghost use Rattle.std.specs.Prelude.{◌≡◌};
ghost use Rattle.std.specs.Option.{option_map};
ghost use Rattle.reader.specs.Scan.{word, behind};
ghost use Rattle.reader.specs.Words.{lay_words, strike_words, retime_words, name_words, verb_in, says_by, says};
ghost use Rattle.reader.specs.Limits.{LimitsStand};
ghost use Rattle.reader.specs.Plain.{LineReadsBack, SaysSayable, SheetReadsBack, CallsReadBack};
ghost use Rattle.reader.specs.Said.{call_of, said};

use crate::questions::{Look, read_route, read_survey};
use crate::rulings::{Ruling, read_rule};
use crate::scan::{if_ended, next_byte, next_number, split_word, trim};
use tape::command::Question;

/// A call on a rig, as a line says it.
#[derive(Clone, Copy, Drop)]
pub enum Call<'a> {
    Lay {
        tail: u8,
        head: u8,
        winch: u8,
        time: u16,
        strain: u8,
    },
    Strike {
        run: u16,
    },
    Retime {
        run: u16,
        time: u16,
    },
    Name {
        point: u8,
        text: &'a [u8],
    },
}

/// The first word of a line that can be read.
#[derive(Clone, Copy)]
enum Verb {
    Lay,
    Strike,
    Retime,
    Name,
    Rule,
    Route,
    Survey,
}

/// What a line of a sheet says, where it can be read.
#[derive(Clone, Copy)]
pub enum Line<'a> {
    /// A blank line or a comment.
    Nothing,
    Call(Call<'a>),
    Rule(Ruling),
    Route(Question),
    Survey(Look),
}

/// `lay` takes tail, head, winch, time and strain.
fn read_lay(bytes: &[u8]) -> Option<Call<'_>>
    ensures { option_map call_of result ≡ lay_words bytes.now }
{
    let (tail, rest) = next_byte(bytes)?;
    let (head, rest) = next_byte(rest)?;
    let (winch, rest) = next_byte(rest)?;
    let (time, rest) = next_number(rest, u16::MAX)?;
    let (strain, rest) = next_byte(rest)?;
    if_ended(
        rest,
        Call::Lay {
            tail,
            head,
            winch,
            time,
            strain,
        },
    )
}

/// `strike` takes a run.
fn read_strike(bytes: &[u8]) -> Option<Call<'_>>
    ensures { option_map call_of result ≡ strike_words bytes.now }
{
    let (run, rest) = next_number(bytes, u16::MAX)?;
    if_ended(rest, Call::Strike { run })
}

/// `retime` takes a run and its new time.
fn read_retime(bytes: &[u8]) -> Option<Call<'_>>
    ensures { option_map call_of result ≡ retime_words bytes.now }
{
    let (run, rest) = next_number(bytes, u16::MAX)?;
    let (time, rest) = next_number(rest, u16::MAX)?;
    if_ended(rest, Call::Retime { run, time })
}

/// `name` takes a point and, behind one space, a text.
fn read_name(bytes: &[u8]) -> Option<Call<'_>>
    ensures { option_map call_of result ≡ name_words bytes.now }
{
    let (point, rest) = next_byte(bytes)?;
    match rest {
        [_, text @ ..] => Some(Call::Name { point, text }),
        [] => None,
    }
}

/// The word with that spelling.
fn verb_named(word: &[u8]) -> Option<Verb>
    ensures { result ≡ verb_in word.now }
{
    match word {
        b"lay" => Some(Verb::Lay),
        b"strike" => Some(Verb::Strike),
        b"retime" => Some(Verb::Retime),
        b"name" => Some(Verb::Name),
        b"rule" => Some(Verb::Rule),
        b"route" => Some(Verb::Route),
        b"survey" => Some(Verb::Survey),
        _ => None,
    }
}

/// What a line that has words says, if it can be read.
fn read_words(words: &[u8]) -> Option<Line<'_>>
    ensures { said result ≡ says_by (verb_in (word words.now)) (behind words.now) }
{
    let (first, rest) = split_word(words);
    match verb_named(first)? {
        Verb::Lay => Some(Line::Call(read_lay(rest)?)),
        Verb::Strike => Some(Line::Call(read_strike(rest)?)),
        Verb::Retime => Some(Line::Call(read_retime(rest)?)),
        Verb::Name => Some(Line::Call(read_name(rest)?)),
        Verb::Rule => Some(Line::Rule(read_rule(rest)?)),
        Verb::Route => Some(Line::Route(read_route(rest)?)),
        Verb::Survey => Some(Line::Survey(read_survey(rest)?)),
    }
}

/// What a line says, if it can be read.
pub fn read_line(line: &[u8]) -> Option<Line<'_>>
    ensures { said result ≡ says line.now }
{
    let words = trim(line);
    match words {
        [] | [b'#', ..] => Some(Line::Nothing),
        _ => read_words(words),
    }
}

/// The plain words of whatever a line can say are read as that, and a line that can be read says nothing else;
/// so for a whole sheet of such lines, and for its calls.
pub fn plain_words_read_back()
    ensures line { LineReadsBack }
    ensures only { SaysSayable }
    ensures sheet { SheetReadsBack }
    ensures calls { CallsReadBack }
{}

/// Lines with the largest numbers that can be read, and with the next, say what stands beside them in a table.
pub fn limits_stand()
    ensures { LimitsStand }
{}
