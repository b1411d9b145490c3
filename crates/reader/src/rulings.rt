ghost use Rattle.std.specs.Prelude.{◌≡◌};
ghost use Rattle.reader.specs.Rulings.{setting as setting_words, flat_words, point_words, pair_words, rule_in, rule_words};
ghost use Rattle.reader.specs.Said.{went_on};

use crate::scan::{if_ended, is_over, next_byte, next_number, split_word, trim};
use tape::command::RuleName;
use walks::setting::BARRED;

/// What a line says about the hand-over rules.
#[derive(Clone, Copy, Drop)]
pub enum Ruling {
    /// The rule for later questions.
    Choose {
        rule: RuleName,
    },
    /// Sets the flat rule, and chooses it.
    SetFlat {
        setting: u16,
    },
    /// Sets the point rule at one point, and chooses it.
    SetPoint {
        point: u8,
        setting: u16,
    },
    /// Sets the pair rule at one pair of winches, and chooses it.
    SetPair {
        arriving: u8,
        leaving: u8,
        setting: u16,
    },
}

/// A setting, and the bytes behind it.
fn next_setting(bytes: &[u8]) -> Option<(u16, &[u8])>
    ensures { went_on result ≡ setting_words bytes.now }
{
    let (first, rest) = split_word(trim(bytes));
    match first {
        b"barred" => Some((BARRED, rest)),
        _ => next_number(bytes, BARRED - 1),
    }
}

/// The flat rule takes a setting.
fn read_flat(bytes: &[u8]) -> Option<Ruling>
    ensures { result ≡ flat_words bytes.now }
{
    let (setting, rest) = next_setting(bytes)?;
    if_ended(rest, Ruling::SetFlat { setting })
}

/// The point rule takes a point and a setting.
fn read_point(bytes: &[u8]) -> Option<Ruling>
    ensures { result ≡ point_words bytes.now }
{
    let (point, rest) = next_byte(bytes)?;
    let (setting, rest) = next_setting(rest)?;
    if_ended(rest, Ruling::SetPoint { point, setting })
}

/// The pair rule takes the arriving winch, the leaving winch and a setting.
fn read_pair(bytes: &[u8]) -> Option<Ruling>
    ensures { result ≡ pair_words bytes.now }
{
    let (arriving, rest) = next_byte(bytes)?;
    let (leaving, rest) = next_byte(rest)?;
    let (setting, rest) = next_setting(rest)?;
    if_ended(
        rest,
        Ruling::SetPair {
            arriving,
            leaving,
            setting,
        },
    )
}

/// The rule of that name.
fn rule_named(name: &[u8]) -> Option<RuleName>
    ensures { result ≡ rule_in name.now }
{
    match name {
        b"flat" => Some(RuleName::Flat),
        b"point" => Some(RuleName::Point),
        b"pair" => Some(RuleName::Pair),
        _ => None,
    }
}

/// What the words behind `rule` say: a rule's name alone chooses it, words behind the name set it.
pub fn read_rule(bytes: &[u8]) -> Option<Ruling>
    ensures { result ≡ rule_words bytes.now }
{
    let (name, rest) = split_word(trim(bytes));
    let rule = rule_named(name)?;
    if is_over(rest) {
        return Some(Ruling::Choose { rule });
    }
    match rule {
        RuleName::Flat => read_flat(rest),
        RuleName::Point => read_point(rest),
        RuleName::Pair => read_pair(rest),
    }
}
