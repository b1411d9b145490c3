ghost use Rattle.std.specs.Prelude.{◌≡◌};
ghost use Rattle.reader.specs.Questions.{kind_in, next_kind, route_words, survey_words};
ghost use Rattle.reader.specs.Said.{went_on};

use crate::scan::{if_ended, next_byte, split_word, trim};
use tape::command::{KindName, Question};

/// A survey that is asked: by which kind of cost, from where.
#[derive(Clone, Copy, Drop)]
pub struct Look {
    pub kind: KindName,
    pub home: u8,
}

/// The kind of cost that a word of one letter names.
fn kind_named(word: &[u8]) -> Option<KindName>
    ensures { result ≡ kind_in word.now }
{
    match word {
        [letter] => KindName::try_from(char::from(*letter)).ok(),
        _ => None,
    }
}

/// The kind that the next word names, and the bytes behind it.
fn next_kind(bytes: &[u8]) -> Option<(KindName, &[u8])>
    ensures { went_on result ≡ next_kind bytes.now }
{
    let (letter, rest) = split_word(trim(bytes));
    let kind = kind_named(letter)?;
    Some((kind, rest))
}

/// `route` takes a kind, a home and a mark.
pub fn read_route(bytes: &[u8]) -> Option<Question>
    ensures { result ≡ route_words bytes.now }
{
    let (kind, rest) = next_kind(bytes)?;
    let (home, rest) = next_byte(rest)?;
    let (mark, rest) = next_byte(rest)?;
    if_ended(rest, Question { kind, home, mark })
}

/// `survey` takes a kind and a home.
pub fn read_survey(bytes: &[u8]) -> Option<Look>
    ensures { result ≡ survey_words bytes.now }
{
    let (kind, rest) = next_kind(bytes)?;
    let (home, rest) = next_byte(rest)?;
    if_ended(rest, Look { kind, home })
}
