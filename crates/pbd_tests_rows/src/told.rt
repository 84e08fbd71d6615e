//! What is told of a row of a table that comes to something else than it says.
use std::fmt::Debug;
use std::io::Eprint;

/// One where a row came to something else than it says, which is told then behind the row and what it says of it, and else
/// nothing.
pub fn wrong_row<R: Debug, T: Debug + PartialEq>(
    rt: &impl Eprint,
    (row, what): (&R, &str),
    came_to: &T,
    wanted: &T,
) -> u32 {
    if came_to == wanted {
        return 0;
    }
    let _ = eprintln!(rt; "{row:?} {what}: {came_to:?}, not {wanted:?}");
    1
}

/// How many rows of a table are wrong.
#[derive(Clone, Copy, Debug, Drop)]
pub struct WrongRows(u32);

/// Ends the test of a table, of which so many rows are wrong.
pub fn all_hold(wrong: u32) -> Result<(), WrongRows> {
    if wrong == 0 {
        Ok(())
    } else {
        Err(WrongRows(wrong))
    }
}

/// What five answers are of.
pub const WIDTHS: &str = "at widths 1, 2, 4, 8 and 16";

/// What a function of this name comes to at widths 1, 2, 4, 8 and 16, with these arguments, and behind them the count `Steps<G>`
/// of accesses that the blank opens.
#[macro_export]
macro_rules! at_widths {
    ($blank:expr, $what:ident($($argument:expr),*)) => {{
        let mut steps: Steps<G> = Steps::open($blank);
        let come_to = [
            $what::<1, G>($($argument,)* &mut steps),
            $what::<2, G>($($argument,)* &mut steps),
            $what::<4, G>($($argument,)* &mut steps),
            $what::<8, G>($($argument,)* &mut steps),
            $what::<16, G>($($argument,)* &mut steps),
        ];
        drop(steps);
        come_to
    }};
}

/// Tests a table row by row: what a row comes to is what it wants. Each row that comes to something else is told, behind it what
/// was asked of it, and the rest of the table runs.
#[macro_export]
macro_rules! each_row {
    ($rt:expr, $rows:expr, $what:expr, $row:pat => $came_to:expr, $wanted:expr) => {{
        let mut wrong = 0u32;
        for row in $rows {
            let $row = row;
            wrong = wrong.saturating_add($crate::wrong_row(&$rt, (row, $what), &$came_to, $wanted));
        }
        $crate::all_hold(wrong)
    }};
}
