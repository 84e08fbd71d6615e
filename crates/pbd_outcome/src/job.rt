// What the words of a command line ask for.
ghost use Rattle.std.specs.Prelude.{◌≡◌, [], ◌∷◌, ◌≤◌, ◌<◌, ◌^◌, IfSome, IsTrue, length};
ghost use Rattle.std.specs.List.{list_all};
ghost use Rattle.pbd_script.specs.Lines.{is_digit};
ghost use Rattle.pbd_outcome.specs.Job.{width, are_digits, number, size, with_width, large, job, job_of, IsSized};

use pbd_script::lines;
use pbd_world::Width;

/// What the words ask for.
#[derive(Clone, Copy, Debug, PartialEq, Eq)]
pub enum Job {
    Simulate(Width),
    Record(Width),
    Replay(Width),
    Large { width: Width, seed: u64, size: u32 },
    Scramble { seed: u64 },
    Obj(Width),
    Marks(Width),
    Host(Width),
}

#[tactic(auto, unfolding(crate::specs::Job::width))]
fn width_of(word: &str) -> Option<Width>
    ensures { result ≡ width word.now }
{
    if word == "1" {
        Some(Width::W1)
    } else if word == "2" {
        Some(Width::W2)
    } else if word == "4" {
        Some(Width::W4)
    } else if word == "8" {
        Some(Width::W8)
    } else if word == "16" {
        Some(Width::W16)
    } else {
        None
    }
}

fn are_digits(most: usize, word: &[u8]) -> bool
    ensures test { result ≡ are_digits most word.now }
    ensures digits { IsTrue result → IsTrue (list_all is_digit word.now) }
    ensures short { IsTrue result → length word.now ≤ most }
{
    1 <= word.len() && word.len() <= most && lines::are_digits(word)
}

/// 1 to 20 digits that say at most 2^64 - 1.
#[tactic(auto, unfolding(crate::specs::Job::number))]
fn number(word: &str) -> Option<u64>
    ensures { result ≡ number word.now }
{
    if !are_digits(20, word.as_bytes()) {
        return None;
    }
    let n = lines::value_of(word.as_bytes());
    if n < 18_446_744_073_709_551_616 {
        Some(n as u64)
    } else {
        None
    }
}

/// 1 to 3 digits that say 2 to 128.
#[tactic(auto, unfolding(crate::specs::Job::size))]
fn size(word: &str) -> Option<u32>
    ensures value { result ≡ size word.now }
    ensures low { IfSome result (λ n. 2 ≤ n) }
    ensures high { IfSome result (λ n. n ≤ 128) }
{
    if !are_digits(3, word.as_bytes()) {
        return None;
    }
    let n = lines::value_of(word.as_bytes());
    if 2 <= n && n <= 128 {
        Some(n as u32)
    } else {
        None
    }
}

fn with_width(form: &str, width: Width) -> Option<Job>
    ensures value { result ≡ with_width form.now width }
    ensures sized { IfSome result IsSized }
{
    if form == "simulate" {
        Some(Job::Simulate(width))
    } else if form == "record" {
        Some(Job::Record(width))
    } else if form == "replay" {
        Some(Job::Replay(width))
    } else if form == "obj" {
        Some(Job::Obj(width))
    } else if form == "marks" {
        Some(Job::Marks(width))
    } else if form == "host" {
        Some(Job::Host(width))
    } else {
        None
    }
}

fn large(width: &str, seed: &str, side: &str) -> Option<Job>
    ensures value { result ≡ large width.now seed.now side.now }
    ensures sized { IfSome result IsSized }
{
    let width = width_of(width)?;
    let seed = number(seed)?;
    let size = size(side)?;
    Some(Job::Large { width, seed, size })
}

fn of_two(form: &str, word: &str) -> Option<Job>
    ensures value { result ≡ job (form.now ∷ word.now ∷ []) }
    ensures sized { IfSome result IsSized }
{
    if form == "scramble" {
        let seed = number(word)?;
        return Some(Job::Scramble { seed });
    }
    let width = width_of(word)?;
    with_width(form, width)
}

/// The job of the words, `None` exactly where they are no form.
pub fn job_of(words: &[String]) -> Option<Job>
    ensures job { result ≡ job_of words.now }
    ensures sized { IfSome result IsSized }
{
    match words {
        [form, word] => of_two(form.as_str(), word.as_str()),
        [form, width, seed, side] => {
            if form.as_str() == "large" {
                large(width.as_str(), seed.as_str(), side.as_str())
            } else {
                None
            }
        }
        _ => None,
    }
}
