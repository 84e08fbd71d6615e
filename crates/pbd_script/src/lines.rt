//! Lines, words and numbers of a text in bytes. Nothing here takes memory.
ghost use Rattle.std.specs.Prelude.{◌≡◌, ◌≢◌, ◌<◌, ◌≤◌, ◌^◌, IsTrue, length, [], ◌∷◌, ◌++◌, ◌==◌, not, IfSome, position, MatchOption, All, unsigned_abs};
ghost use Rattle.std.specs.List.{list_all};
ghost use Rattle.std.specs.Str.Lines.{strip_carriage_return};
ghost use Rattle.pbd_script.specs.Lines.{pieces, is_blank, words, first_word, behind_word, is_digit, value, count, number, only_count};

/// The most digits that a count may have.
const MOST_DIGITS: usize = 18;

fn newline_at(bytes: &[u8]) -> Option<usize>
    ensures { result ≡ position (λ b. b == 10) bytes.now }
{
    bytes.iter().position(|b| *b == b'\n')
}

/// The first piece between newlines, and what follows its newline, if it has one.
pub fn first_line(bytes: &[u8]) -> (&[u8], Option<&[u8]>)
    ensures lines { MatchOption result.1 (pieces bytes.now ≡ result.0.now ∷ [])
        (λ rest. pieces bytes.now ≡ result.0.now ∷ pieces rest.now) }
    ensures bytes { MatchOption result.1 (bytes.now ≡ result.0.now)
        (λ rest. bytes.now ≡ result.0.now ++ 10 ∷ rest.now) }
    ensures whole { All (λ b. b ≢ 10) result.0.now }
{
    match newline_at(bytes) {
        None => (bytes, None),
        Some(at) => (&bytes[..at], Some(&bytes[at + 1..])),
    }
}

/// The line without the one carriage return at its end, if it has one.
pub fn without_return(line: &[u8]) -> &[u8]
    ensures { result.now ≡ strip_carriage_return line.now }
{
    match line {
        [front @ .., b'\r'] => front,
        _ => line,
    }
}

fn is_blank(b: u8) -> bool
    ensures { result ≡ is_blank b }
{
    b == b' ' || b == b'\t'
}

fn blank_at(line: &[u8]) -> Option<usize>
    ensures { result ≡ position is_blank line.now }
{
    line.iter().position(|b| is_blank(*b))
}

fn word_at(line: &[u8]) -> Option<usize>
    ensures { result ≡ position (λ b. not (is_blank b)) line.now }
{
    line.iter().position(|b| !is_blank(*b))
}

/// The first word between spaces and tabs, and what follows it.
/// None comes exactly where the line has no words.
pub fn next_word(line: &[u8]) -> Option<(&[u8], &[u8])>
    ensures words { MatchOption result (words line.now ≡ [])
        (λ x. words line.now ≡ x.0.now ∷ words x.1.now) }
    ensures place { IfSome result (λ x.
        (x.0.now ≡ first_word line.now) × (x.1.now ≡ behind_word line.now)) }
{
    match word_at(line) {
        None => None,
        Some(start) => {
            let from = &line[start..];
            match blank_at(from) {
                None => Some((from, &[])),
                Some(end) => Some((&from[..end], &from[end..])),
            }
        }
    }
}

/// Whether all bytes are digits, as they are where there are none.
pub fn are_digits(word: &[u8]) -> bool
    ensures { result ≡ list_all is_digit word.now }
{
    word.iter().all(|b| 48 <= *b && *b <= 57)
}

/// The number that at most 38 digits write, so that it is below 2^128.
pub fn value_of(digits: &[u8]) -> u128
    requires digits { IsTrue (list_all is_digit digits.now) }
    requires short { length digits.now ≤ 38 }
    ensures value { result ≡ value digits.now }
    ensures size { result < 10 ^ length digits.now }
{
    let mut n = 0;
    for digit in digits {
        n = n * 10 + u128::from(*digit - b'0');
    }
    n
}

/// The number that 1 to 18 digits write. Leading zeros are allowed. Any other word gives None.
pub fn count_of(word: &[u8]) -> Option<u64>
    ensures exact { result ≡ count word.now }
    ensures bound { IfSome result (λ n. n < 10 ^ 18) }
{
    if word.is_empty() || word.len() > MOST_DIGITS || !are_digits(word) {
        return None;
    }
    Some(value_of(word) as u64)
}

/// The count that is the only word of a line, or of what follows its first word.
/// None comes for any other line.
pub fn only_count(line: &[u8]) -> Option<u64>
    ensures { result ≡ only_count (words line.now) }
{
    let (word, rest) = next_word(line)?;
    match next_word(rest) {
        None => count_of(word),
        Some(_) => None,
    }
}

/// The number that a count, or `-` and a count, writes. Any other word gives None.
pub fn number_of(word: &[u8]) -> Option<i64>
    ensures exact { result ≡ number word.now }
    ensures bound { IfSome result (λ n. unsigned_abs n < 10 ^ 18) }
{
    match word {
        [b'-', digits @ ..] => match count_of(digits) {
            Some(n) => Some(-(n as i64)),
            None => None,
        },
        _ => match count_of(word) {
            Some(n) => Some(n as i64),
            None => None,
        },
    }
}
