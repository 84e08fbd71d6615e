//! Laws of batches, each the contract of a function that does nothing.
ghost use Rattle.std.specs.Prelude.{◌≡◌, ◌<◌, ◌++◌, ℕ, List, Bool};
ghost use Rattle.std.specs.List.{range_with_len, flat_map};
ghost use Rattle.pbd_world.specs.Colours.{order};
ghost use Rattle.pbd_colour.specs.Batch.{AreApart, AreLive};
ghost use Rattle.pbd_colour.specs.Pairs.{batch_of};

/// A batch is of live pairs, ascending.
pub fn batches_are_live()
    ensures { (pairs : List (ℕ × ℕ)) (live : List Bool) (c : ℕ) → AreLive pairs live (batch_of pairs live c) }
{}

/// No two pairs of a batch below 63 share a particle.
pub fn batches_are_apart()
    ensures { (pairs : List (ℕ × ℕ)) (live : List Bool) (c : ℕ) → c < 63 → AreApart pairs (batch_of pairs live c) }
{}

/// The batches joined, and the serial pairs after them, are the order.
pub fn batches_make_order()
    ensures { (pairs : List (ℕ × ℕ)) (live : List Bool) → order pairs live
        ≡ flat_map (batch_of pairs live) (range_with_len 0 63) ++ batch_of pairs live 63 }
{}
