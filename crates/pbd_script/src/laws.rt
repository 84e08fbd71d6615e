//! Laws of the definitions, each the contract of a function that does nothing.
ghost use Rattle.std.specs.Prelude.{◌≡◌, ◌<◌, ◌^◌, ◌++◌, ◌∷◌, ℕ, ℤ, List, Some, ◌≤◌, decimal, unsigned_abs, Any, IfSome};
ghost use Rattle.std.specs.Fmt.{signed_decimal};
ghost use Rattle.pbd_script.specs.Lines.{count, number};
ghost use Rattle.pbd_script.specs.Commands.{commands, line_command};
ghost use Rattle.pbd_world.specs.declared.command.Command.TheVariants.{Bad};

/// A script is read line by line: what stands before a newline and what follows it give their
/// commands apart.
#[tactic(auto, using(crate::proofs::CommandLemmas::commands_apart))]
pub fn scripts_are_read_line_by_line()
    ensures { (front back : List ℕ) →
        commands (front ++ 10 ∷ back) ≡ commands front ++ commands back }
{}

/// A count below 10^18 that is printed is read back.
#[tactic(auto, using(crate::proofs::NumberLemmas::count_decimal))]
pub fn counts_are_read_back()
    ensures { (n : ℕ) → n < 10 ^ 18 → count (decimal n) ≡ Some n }
{}

/// A number of a size below 10^18 that is printed is read back.
#[tactic(auto, using(crate::proofs::NumberLemmas::number_decimal))]
pub fn numbers_are_read_back()
    ensures { (z : ℤ) → unsigned_abs z < 10 ^ 18 → number (signed_decimal z) ≡ Some z }
{}

/// A line with a byte that isn't ASCII gives `Bad`, or as a comment nothing.
#[tactic(auto, using(crate::proofs::AsciiLemmas::strange_line))]
pub fn lines_that_are_not_ascii_are_bad()
    ensures { (line : List ℕ) → Any (λ b. 128 ≤ b) line →
        IfSome (line_command line) (λ command. command ≡ Bad) }
{}
