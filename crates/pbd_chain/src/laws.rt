//! Laws of chains, each the contract of a function that does nothing.
ghost use Rattle.std.specs.Prelude.{◌≡◌, ◌+◌, ◌<◌, ◌≤◌, ◌==◌, ◌&&◌, ◌||◌, ℕ, List, Bool, not, IsTrue, IsFalse, Some, None, length, map, slice_get};
ghost use Rattle.pbd_chain.specs.Linked.{chain_at, is_in, is_linked, with_front, without};

/// What a walk meets is in the chain.
pub fn walked_items_are_in()
    ensures { (chain : List ℕ) (k x : ℕ) → slice_get chain k ≡ Some x → IsTrue (is_in x chain) }
{}

/// A walk that meets no item has met all.
pub fn walks_end()
    ensures { (chain : List ℕ) (k : ℕ) → slice_get chain k ≡ None → length chain ≤ k }
{}

/// An item of a chain is linked.
pub fn chains_link_their_items()
    ensures { (chains : List (List ℕ)) (c x : ℕ) → c < length chains → IsTrue (is_in x (chain_at chains c)) → IsTrue (is_linked chains x) }
{}

/// An item that no chain holds isn't linked.
pub fn items_of_no_chain_are_free()
    ensures { (chains : List (List ℕ)) (x : ℕ) →
        ((c : ℕ) → c < length chains → IsFalse (is_in x (chain_at chains c))) → IsFalse (is_linked chains x) }
{}

/// Linking puts one item into one chain.
pub fn linking_adds_one()
    ensures { (chains : List (List ℕ)) (c y : ℕ) → c < length chains → (d x : ℕ) →
        is_in x (chain_at (with_front chains c y) d) ≡ (c == d && y == x || is_in x (chain_at chains d)) }
{}

/// Unlinking takes one item out of all chains.
pub fn unlinking_takes_one()
    ensures { (chains : List (List ℕ)) (y d x : ℕ) →
        is_in x (chain_at (map (without y) chains) d) ≡ (not (y == x) && is_in x (chain_at chains d)) }
{}
