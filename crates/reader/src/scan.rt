ghost use Rattle.std.specs.Prelude.{◌≡◌, ◌<◌, ◌≤◌, ◌==◌, position, IfSome};
ghost use Rattle.reader.specs.Scan.{trimmed, word, behind, number, next, over, ended};
ghost use Rattle.reader.specs.Said.{went_on};

/// The bytes from the first that is not a space.
pub(crate) fn trim(bytes: &[u8]) -> &[u8]
    ensures { result.now ≡ trimmed bytes.now }
{
    // A position and a range would say no more than this pattern does.
    let mut rest = bytes;
    while let [b' ', more @ ..] = rest {
        rest = more;
    }
    rest
}

/// Where the byte stands first.
pub(crate) fn first_of(byte: u8, bytes: &[u8]) -> Option<usize>
    ensures { result ≡ position (λ b. b == byte) bytes.now }
{
    bytes.iter().position(|b| *b == byte)
}

/// The number that a word of digits writes, if it is at most `most`.
fn number_of(digits: &[u8], most: u16) -> Option<u16>
    ensures value { result ≡ number most digits.now }
    ensures bound { IfSome result (λ n. n ≤ most) }
{
    if digits.is_empty() {
        return None;
    }
    let mut n: u16 = 0;
    for b in digits {
        if !b.is_ascii_digit() {
            return None;
        }
        n = n.checked_mul(10)?.checked_add(u16::from(*b - b'0'))?;
        if n > most {
            return None;
        }
    }
    Some(n)
}

/// The first word, up to a space, and the bytes behind it.
pub(crate) fn split_word(bytes: &[u8]) -> (&[u8], &[u8])
    ensures front { result.0.now ≡ word bytes.now }
    ensures back { result.1.now ≡ behind bytes.now }
{
    bytes.split_at(first_of(b' ', bytes).unwrap_or(bytes.len()))
}

/// The next word as a number up to `most`, and the bytes behind it.
pub(crate) fn next_number(bytes: &[u8], most: u16) -> Option<(u16, &[u8])>
    ensures value { went_on result ≡ next most bytes.now }
    ensures bound { IfSome result (λ p. p.0 ≤ most) }
{
    let (digits, rest) = split_word(trim(bytes));
    let n = number_of(digits, most)?;
    Some((n, rest))
}

/// The next word as a number up to 255.
pub(crate) fn next_byte(bytes: &[u8]) -> Option<(u8, &[u8])>
    ensures { went_on result ≡ next 255 bytes.now }
{
    let (n, rest) = next_number(bytes, 255)?;
    // It is at most 255, and a `try_from` would ask that once more.
    Some((n as u8, rest))
}

/// Whether no word is left.
pub(crate) fn is_over(bytes: &[u8]) -> bool
    ensures { result ≡ over bytes.now }
{
    trim(bytes).is_empty()
}

/// What was read, if no word is left.
pub(crate) fn if_ended<T: Drop>(bytes: &[u8], value: T) -> Option<T>
    ensures { result ≡ ended bytes.now value }
{
    is_over(bytes).then_some(value)
}
