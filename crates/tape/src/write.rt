ghost use Rattle.std.proofs.Common.{rules};
ghost use Rattle.std.specs.Prelude.{◌≡◌, ℕ, ◌≤◌, List, [], ◌∷◌, ◌++◌, length};
ghost use Rattle.track.specs.Sizes.{most_runs};
ghost use Rattle.track.specs.Answers.{told};
ghost use Rattle.track.specs.Map.{Call};
ghost use Rattle.track.specs.Map.Call.{Write};
ghost use Rattle.track.specs.Calls.{map_of, map_after, LeftBy};
ghost use Rattle.tape.specs.Refusals.{number};
ghost use Rattle.tape.specs.Tape.{numbered, WriteDone};
ghost use Rattle.tape.specs.Buffers.{put_front, run_bytes, name_bytes};

use crate::refusal::WriteRefusal;
use track::rig::{GetIn, Rig};
use track::run::{MOST_RUNS, NO_NAME, POINTS, Run};

/// The most bytes that a tape has: 256 runs, all struck, and 128 names.
pub const LONGEST: usize = MOST_RUNS * 9 + POINTS * 10;

/// Writes the tape of the rig's map at the beginning of `out` and answers its length.
///
/// Run by run, `R` with the present time and then `X` if the run is struck; then `N` for every name that is not eight spaces.
/// Refuses with 17 a buffer that is shorter than the tape, and leaves it untouched.
pub fn write(rig: &Rig<GetIn>, out: &mut [u8]) -> Result<usize, WriteRefusal>
    ensures done { WriteDone (map_of rig.now) out.old (told number result) out.new }
    ensures law { (calls : List Call) → LeftBy calls (map_of rig.now) → WriteDone (map_after calls) out.old (told number result) out.new × LeftBy (calls ++ Write ∷ []) (map_of rig.now) }
{
    let runs = rig.runs();
    let names = rig.names();
    if total_size(runs) + total_size(names) > out.len() {
        return Err(WriteRefusal::BufferShort);
    }
    let len = put_all(out, runs);
    Ok(len + put_all(&mut out[len..], names))
}

/// What a tape has of each run and of each point.
trait Item {
    /// Its bytes, by its number.
    ghost bytes: { ℕ → Self → List ℕ };

    /// How many bytes it takes.
    fn size(&self) -> usize
        ensures value { result ≡ length (bytes 0 self.now) }
        ensures bound { result ≤ 10 };

    /// Writes it at the front of `out`, and answers how many bytes that took.
    fn put(&self, number: u8, out: &mut [u8]) -> usize
        requires { length (bytes number self.now) ≤ length out.old }
        ensures len { result ≡ length (bytes number self.now) }
        ensures left { out.new ≡ put_front out.old (bytes number self.now) };

    /// How many they are does not depend on the number.
    ghost same_size: { (number : ℕ) (item : Self) → length (bytes number item) ≡ length (bytes 0 item) };
}

/// A run is laid, and then struck if it is struck.
impl Item for Run {
    ghost bytes = { run_bytes };

    ghost same_size = { Prim.search rules };

    fn size(&self) -> usize {
        if self.struck { 9 } else { 7 }
    }

    fn put(&self, number: u8, out: &mut [u8]) -> usize {
        let [t1, t0] = self.time.to_be_bytes();
        let lay = [b'R', self.tail, self.head, self.winch, t1, t0, self.strain];
        let len = put(out, &lay);
        if self.struck {
            len + put(&mut out[len..], &[b'X', number])
        } else {
            len
        }
    }
}

/// A point is named, unless its name is blank.
impl Item for [u8; 8] {
    ghost bytes = { name_bytes };

    ghost same_size = { Prim.search rules };

    fn size(&self) -> usize {
        if *self == NO_NAME { 0 } else { 10 }
    }

    fn put(&self, number: u8, out: &mut [u8]) -> usize {
        if *self == NO_NAME {
            return 0;
        }
        let len = put(out, &[b'N', number]);
        len + put(&mut out[len..], self)
    }
}

/// How many bytes the items take.
fn total_size<T: Item>(items: &[T]) -> usize
    requires { length items.now ≤ most_runs }
    ensures value { result ≡ length (numbered T.bytes 0 items.now) }
    ensures bound { result ≤ 2560 }
{
    items.iter().map(|item| item.size()).sum()
}

/// Writes the items at the front of `out`, and answers how many bytes that took.
fn put_all<T: Item>(out: &mut [u8], items: &[T]) -> usize
    requires few { length items.now ≤ most_runs }
    requires room { length (numbered T.bytes 0 items.now) ≤ length out.old }
    ensures len { result ≡ length (numbered T.bytes 0 items.now) }
    ensures left { out.new ≡ put_front out.old (numbered T.bytes 0 items.now) }
{
    let mut len = 0;
    for (number, item) in items.iter().enumerate() {
        len += item.put(number as u8, &mut out[len..]);
    }
    len
}

/// Writes `bytes` at the front of `out`, and answers how many they are.
fn put(out: &mut [u8], bytes: &[u8]) -> usize
    requires { length bytes.now ≤ length out.old }
    ensures len { result ≡ length bytes.now }
    ensures left { out.new ≡ put_front out.old bytes.now }
{
    out[..bytes.len()].copy_from_slice(bytes);
    bytes.len()
}
