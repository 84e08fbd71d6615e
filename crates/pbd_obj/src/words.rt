//! Words that are counts, signs before them, and bytes in them.
ghost use Rattle.std.specs.Prelude.{◌≡◌, ◌==◌, ◌<◌, ◌≤◌, ◌^◌, IfSome, length, position};
ghost use Rattle.std.specs.List.{position_or_len};
ghost use Rattle.pbd_obj.specs.Decimals.{is_minus, without_sign, short_count};
ghost use Rattle.pbd_obj.specs.Reading.{without_minus};

use pbd_script::lines::count_of;

pub fn is_minus(word: &[u8]) -> bool
    ensures { result ≡ is_minus word.now }
{
    match word {
        [first, ..] => *first == b'-',
        [] => false,
    }
}

/// The word without the `+` or `-` before it, if there is one.
pub fn without_sign(word: &[u8]) -> &[u8]
    ensures value { result.now ≡ without_sign word.now }
{
    match word {
        [first, rest @ ..] if *first == b'+' || *first == b'-' => rest,
        _ => word,
    }
}

/// The word without the `-` before it, if there is one.
pub fn without_minus(word: &[u8]) -> &[u8]
    ensures { result.now ≡ without_minus word.now }
{
    match word {
        [first, rest @ ..] if *first == b'-' => rest,
        _ => word,
    }
}

fn first_byte(word: &[u8], byte: u8) -> Option<usize>
    ensures { result ≡ position (λ b. b == byte) word.now }
{
    word.iter().position(|b| *b == byte)
}

/// Where a byte first stands, or the word's end.
#[tactic(auto, using(crate::proofs::Numbers::position_end, crate::proofs::Numbers::position_most))]
pub fn byte_at(word: &[u8], byte: u8) -> usize
    ensures place { result ≡ position_or_len (λ b. b == byte) word.now }
    ensures within { result ≤ length word.now }
{
    first_byte(word, byte).unwrap_or(word.len())
}

/// The number that 1 to `most` digits write.
pub fn short_count(most: usize, word: &[u8]) -> Option<u64>
    requires { most ≤ 18 }
    ensures value { result ≡ short_count most word.now }
    ensures size { IfSome result (λ n. n < 10 ^ most) }
{
    if word.len() <= most {
        count_of(word)
    } else {
        None
    }
}
