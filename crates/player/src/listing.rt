ghost use Rattle.std.specs.Prelude.{◌≡◌, ◌+◌, ◌<◌, ◌≤◌, [], ◌∷◌, ◌++◌, length, option_copied};
ghost use Rattle.std.specs.List.{flat_map};
ghost use Rattle.player.specs.Lines.{field, line_of};
ghost use Rattle.player.specs.Writing.{heading, reply_of, line_answer, line_left};

use crate::fault::ListingCause;
use arrayvec::ArrayString;
use desk::ask::Route;
use itoa::Buffer;
use tape::command::Question;
use track::run::MOST_RUNS;

/// What the longest line takes: kind, home and mark, the cost, the number of runs, 256 runs, and the line's end.
pub(crate) const LINE: usize = 1 + 2 * 4 + 21 + 4 + MOST_RUNS * 6 + 1;

/// Writes the line that tells the reply to a question at the beginning of `out` and answers its length.
///
/// Writes nothing where the line does not fit. The line is made in `line`, whatever that held.
pub(crate) fn write_line(
    line: &mut ArrayString<LINE>,
    out: &mut [u8],
    question: Question,
    route: Option<&Route>,
) -> Result<usize, ListingCause>
    ensures value { result ≡ line_answer (line_of question.kind question.home question.mark (reply_of (option_copied route.entry))) out.old }
    ensures after { out.new ≡ line_left (line_of question.kind question.home question.mark (reply_of (option_copied route.entry))) out.old }
{
    line.clear();
    put_line(line, question, route);
    let text = line.as_str().as_bytes();
    if text.len() > out.len() {
        return Err(ListingCause::NoRoom);
    }
    out[..text.len()].copy_from_slice(text);
    Ok(text.len())
}

/// Writes the line that tells the reply to a question: a route, or that there is no way.
fn put_line(line: &mut ArrayString<LINE>, question: Question, route: Option<&Route>)
    requires { line.old.bytes ≡ [] }
    ensures { line.new.bytes ≡ line_of question.kind question.home question.mark (reply_of (option_copied route.entry)) }
{
    put_question(line, question);
    match route {
        Some(route) => put_route(line, route),
        None => line.push_str(" no way"),
    }
    line.push('\n');
}

/// Appends kind, home and mark.
fn put_question(line: &mut ArrayString<LINE>, question: Question)
    requires { line.old.bytes ≡ [] }
    ensures after { line.new.bytes ≡ heading question.kind question.home question.mark }
    ensures within { length line.new.bytes ≤ 9 }
{
    line.push(char::from(u8::from(question.kind)));
    put_field(line, u64::from(question.home));
    put_field(line, u64::from(question.mark));
}

/// Appends what a route costs, how many runs it has, and the runs.
fn put_route(line: &mut ArrayString<LINE>, route: &Route)
    requires { length line.old.bytes ≤ 9 }
    ensures after { line.new.bytes ≡ line.old.bytes ++ flat_map field (route.now.cost ∷ length route.now.runs.items ∷ route.now.runs.items) }
    ensures within { length line.new.bytes < LINE }
{
    let runs = route.runs.as_slice();
    put_field(line, route.cost);
    put_field(line, runs.len() as u64);
    for run in runs {
        put_field(line, u64::from(*run));
    }
}

/// Appends a space and `n`.
fn put_field(line: &mut ArrayString<LINE>, n: u64)
    requires { length line.old.bytes + length (field n) ≤ LINE }
    ensures after { line.new.bytes ≡ line.old.bytes ++ field n }
    ensures len { length line.new.bytes ≡ length line.old.bytes + length (field n) }
{
    let mut digits = Buffer::new();
    line.push(' ');
    line.push_str(digits.format(n));
}
