//! When the sums of a balance fit.
ghost use Rattle.std.specs.Prelude.{ℕ, ◌^◌};
ghost use Rattle.pbd_world.specs.Ledger.{Sum, Ledger, SumWithin, HaveRoom};
ghost use Rattle.pbd_ledger.specs.Fitting.{SumsFit};

/// With an opening momentum and totals of at most 2^120 in size, all sums of a balance fit.
pub fn sums_with_room_fit()
    ensures { (opening : Sum) (t : Ledger) → SumWithin (2 ^ 120) opening → HaveRoom (2 ^ 120) t → SumsFit opening t }
{}
