// Splits an input at the first line that is a word.
ghost use Rattle.std.specs.Prelude.{◌≡◌, ◌≤◌, IfSome, length, option_map};
ghost use Rattle.pbd_outcome.specs.Split.{is_line, split, split_at};

use pbd_script::lines::{first_line, without_return};

fn is_line(word: &[u8], piece: &[u8]) -> bool
    ensures { result ≡ is_line word.now piece.now }
{
    without_return(piece) == word
}

/// What stands before the first line that is this word, and what follows it.
#[tactic(auto, using(crate::proofs::SplitLaws::split_here, crate::proofs::SplitLaws::split_on, crate::proofs::SplitLaws::split_last))]
pub fn split_at<'a>(word: &[u8], input: &'a [u8]) -> Option<(&'a [u8], &'a [u8])>
    ensures halves { option_map (λ halves. (halves.0.now, halves.1.now)) result ≡ split_at word.now input.now }
    ensures first { IfSome result (λ halves. length halves.0.now ≤ length input.now) }
    ensures second { IfSome result (λ halves. length halves.1.now ≤ length input.now) }
{
    let mut at = 0;
    let mut rest = input;
    loop {
        let (piece, next) = first_line(rest);
        match next {
            None => {
                return if is_line(word, piece) {
                    Some((&input[..at], &[]))
                } else {
                    None
                };
            }
            Some(next) => {
                if is_line(word, piece) {
                    return Some((&input[..at], next));
                }
                at += piece.len() + 1;
                rest = next;
            }
        }
    }
}

/// The scene before the first line that is `%%`, and the script after it.
pub fn split(input: &[u8]) -> Option<(&[u8], &[u8])>
    ensures halves { option_map (λ halves. (halves.0.now, halves.1.now)) result ≡ split input.now }
    ensures first { IfSome result (λ halves. length halves.0.now ≤ length input.now) }
    ensures second { IfSome result (λ halves. length halves.1.now ≤ length input.now) }
{
    split_at(b"%%", input)
}
