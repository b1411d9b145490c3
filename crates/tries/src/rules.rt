// The settings of the three rules, accepted and refused, and what the rules then answer.
use crate::report::Report;
use desk::rules::Rules;
use tape::command::RuleName;
use walks::refusal::RuleRefusal;
use walks::rule::HandoverRule;
use walks::setting::BARRED;

/// A setting. A tape's command may be another thing.
#[derive(Clone, Copy, Drop)]
enum Setting {
    Flat(u16),
    Point(u8, u16),
    Pair(u8, u8, u16),
}

/// A setting, and the number with which it is refused, if it is.
type Step = (Setting, Option<u8>);

const SETTINGS: [Step; 17] = [
    (Setting::Flat(9), None),
    (Setting::Point(127, 5), None),
    (Setting::Point(128, 6), Some(1)),
    (Setting::Point(255, BARRED), Some(1)),
    (Setting::Point(0, BARRED), None),
    (Setting::Point(1, 65_534), None),
    (Setting::Pair(15, 14, 7), None),
    (Setting::Pair(16, 0, 8), Some(3)),
    (Setting::Pair(0, 16, 8), Some(3)),
    (Setting::Pair(16, 16, 8), Some(3)),
    (Setting::Pair(255, 255, 8), Some(3)),
    (Setting::Pair(0, 0, 8), Some(12)),
    (Setting::Pair(15, 15, 8), Some(12)),
    (Setting::Pair(14, 15, BARRED), None),
    (Setting::Pair(0, 1, 65_534), None),
    (Setting::Flat(65_534), None),
    (Setting::Flat(9), None),
];

/// The rule in force, the point, arriving and leaving winch of a joint, and what should be answered.
type Asked = (RuleName, u8, u8, u8, Option<u16>);

/// Before any setting.
const AT_FIRST: [Asked; 3] = [
    (RuleName::Flat, 0, 0, 1, Some(0)),
    (RuleName::Point, 127, 15, 0, Some(0)),
    (RuleName::Pair, 127, 15, 0, Some(0)),
];

/// After the settings.
const THEN: [Asked; 26] = [
    (RuleName::Flat, 0, 0, 1, Some(9)),
    (RuleName::Flat, 127, 15, 0, Some(9)),
    (RuleName::Flat, 0, 0, 0, Some(0)),
    (RuleName::Flat, 128, 0, 1, None),
    (RuleName::Flat, 128, 0, 0, None),
    (RuleName::Flat, 0, 16, 0, None),
    (RuleName::Flat, 0, 0, 16, None),
    (RuleName::Flat, 0, 16, 16, None),
    (RuleName::Point, 127, 0, 1, Some(5)),
    (RuleName::Point, 126, 0, 1, Some(0)),
    (RuleName::Point, 0, 0, 1, None),
    (RuleName::Point, 0, 3, 3, Some(0)),
    (RuleName::Point, 1, 1, 0, Some(65_534)),
    (RuleName::Point, 128, 0, 1, None),
    (RuleName::Point, 128, 0, 0, None),
    (RuleName::Point, 1, 16, 0, None),
    (RuleName::Point, 1, 16, 16, None),
    (RuleName::Pair, 0, 15, 14, Some(7)),
    (RuleName::Pair, 127, 15, 14, Some(7)),
    (RuleName::Pair, 0, 14, 15, None),
    (RuleName::Pair, 0, 14, 14, Some(0)),
    (RuleName::Pair, 0, 0, 1, Some(65_534)),
    (RuleName::Pair, 0, 1, 0, Some(0)),
    (RuleName::Pair, 128, 15, 14, None),
    (RuleName::Pair, 0, 16, 15, None),
    (RuleName::Pair, 0, 15, 16, None),
];

/// Makes a setting. The rows of the table are data, and matched: a table of closures would be no plainer.
fn set(rules: &mut Rules, setting: Setting) -> Result<(), RuleRefusal> {
    match setting {
        Setting::Flat(setting) => {
            rules.flat.set(setting);
            Ok(())
        }
        Setting::Point(point, setting) => rules.point.set(point, setting),
        Setting::Pair(arriving, leaving, setting) => rules.pair.set(arriving, leaving, setting),
    }
}

/// Whether two rules give the same answers at all joints of two winches at a point.
// By loops: three closures inside one another took half as long again, and this is most of what the program does.
fn agree_at<R: HandoverRule>(one: &R, other: &R, point: u8) -> bool {
    for arriving in 0..16 {
        for leaving in 0..16 {
            if one.ask(point, arriving, leaving) != other.ask(point, arriving, leaving) {
                return false;
            }
        }
    }
    true
}

/// The same at all points.
fn agree<R: HandoverRule>(one: &R, other: &R) -> bool {
    (0..128).all(|point| agree_at(one, other, point))
}

fn ask_all(rules: &mut Rules, table: &[Asked], report: &mut Report) {
    for (rule, point, arriving, leaving, wanted) in table {
        rules.in_force = *rule;
        let answer = HandoverRule::ask(rules, *point, *arriving, *leaving);
        report.hold(answer, *wanted, true);
    }
}

/// Makes the settings on the rules and, but for those that should be refused, on their twins: the two always agree.
pub fn settings(report: &mut Report) {
    let mut rules = Rules::new();
    let mut twins = Rules::new();
    ask_all(&mut rules, &AT_FIRST, report);
    for (setting, wanted) in SETTINGS {
        let answer = set(&mut rules, setting);
        if wanted.is_none() {
            let _ = set(&mut twins, setting);
        }
        let left = agree(&rules.flat, &twins.flat)
            && agree(&rules.point, &twins.point)
            && agree(&rules.pair, &twins.pair);
        let number = answer.err().map(u8::from);
        report.hold(number, wanted, left);
    }
    ask_all(&mut rules, &THEN, report);
}
