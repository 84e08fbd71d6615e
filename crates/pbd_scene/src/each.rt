// The one loop of the scene's arrays that have no fixed length: values that are read one after another.
ghost use Rattle.std.specs.Prelude.{◌≡◌, ◌<◌, ◌≤◌, ◌++◌, ◌∷◌, ℕ, IfOk, [], length, map, List as Items};
ghost use Rattle.toml.specs.Data.{Data};
ghost use Rattle.toml.specs.View.{view};
ghost use Rattle.pbd_scene.specs.Checks.{Checked, Gives, each};

use crate::fault::SceneFault;
use pbd_world::List;
use std::alloc::Global;
use toml::Value;

/// Reads an item, given the items that were read before it.
pub trait Reader {
    type Item;

    /// How many can be read.
    ghost most: { ℕ };

    /// What is known of the items so far.
    ghost fits: { Self → Items Self.Item → Type 0 } = { λ _ _. Unit {0} };

    ghost reads: { Self → Items Self.Item → Data → Checked Self.Item };

    fn read(&self, before: &[Self::Item], value: &Value) -> Result<Self::Item, SceneFault>
        requires few { length before.now < most }
        requires so_far { fits self.now before.now }
        ensures value { Gives (λ x. x) result (reads self.now before.now (view value.now)) }
        ensures keeps { IfOk result (λ x. fits self.now (before.now ++ x ∷ [])) };
}

/// Reads each in order. The first that cannot be read is the fault, unless memory runs out.
pub fn read_each<R: Reader>(
    alloc: Global,
    reader: &R,
    values: &[Value],
) -> Result<List<R::Item>, SceneFault>
where
    R::Item: Drop,
    requires few { length values.now ≤ R.most }
    requires begins { R.fits reader.now [] }
    ensures value { Gives (λ xs. xs) result (each (R.reads reader.now) [] (map view values.now)) }
    ensures keeps { IfOk result (λ xs. R.fits reader.now xs) }
    ensures count { IfOk result (λ xs. length xs ≡ length values.now) }
{
    let mut items = List::new(alloc);
    for value in values.iter() {
        let item = reader.read(items.as_slice(), value)?;
        items.push(item)?;
    }
    Ok(items)
}
