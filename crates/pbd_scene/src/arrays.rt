// Arrays of integers, and the arrays of tables.
ghost use Rattle.std.specs.Prelude.{◌≡◌, [], ◌∷◌, ◌++◌, ◌≤◌, ◌^◌, length, map, IfOk, option_map, List as Items};
ghost use Rattle.toml.specs.Data.{Members, item, no_items};
ghost use Rattle.toml.specs.View.{view, table_view, items_view};
ghost use Rattle.pbd_scene.specs.declared.fault.Place.{Place};
ghost use Rattle.pbd_scene.specs.Checks.{Checked, Gives, broken};
ghost use Rattle.pbd_scene.specs.Values.{array_of, value_of, any_integer, four_of, four_integers, row, required_array, members, entry, entries, entries_of, entry_of, table_of, integers_of};

use crate::each::{Reader, read_each};
use crate::fault::{Place, SceneFault, SceneRule};
use crate::raw::Row;
use crate::tables::{KeyName, TableName};
use crate::values::{Entry, any_integer, broken, find, known, value_of};
use crate::vectors::axes_of;
use pbd_world::List;
use std::alloc::Global;
use toml::{Table, Value};

/// The entries of an array.
#[tactic(auto, unfolding(crate::specs::Values::array_of), using(crate::proofs::Views::list_of_view))]
fn array_of(value: &Value) -> Option<&[Value]>
    ensures { option_map (λ vs. map view vs.now) result ≡ array_of (view value.now) }
{
    let items = value.as_array()?;
    Some(items.as_slice())
}

#[derive(Clone, Copy)]
struct IntegerOf {
    place: Place,
    key: KeyName,
}

impl Reader for IntegerOf {
    type Item = i64;

    ghost most = { 2 ^ 64 };

    ghost reads = { λ s before d. any_integer s.place s.key d };

    fn read(&self, _before: &[i64], value: &Value) -> Result<i64, SceneFault> {
        any_integer(self.place, self.key, value)
    }
}

fn row_of(n: &Value, x: &Value, y: &Value, z: &Value) -> Option<Row>
    ensures { result ≡ four_of (item (view n.now) (item (view x.now) (item (view y.now) (item (view z.now) no_items)))) }
{
    let step = n.as_integer()?;
    let place = axes_of(x, y, z)?;
    Some(Row { step, place })
}

fn four_of(items: &[Value]) -> Option<Row>
    ensures { result ≡ four_of (items_view items.now) }
{
    match items {
        [n, x, y, z] => row_of(n, x, y, z),
        _ => None,
    }
}

fn four_integers(value: &Value) -> Option<Row>
    ensures { result ≡ four_integers (view value.now) }
{
    let items = value.as_array()?;
    four_of(items.as_slice())
}

/// A step and a place.
pub fn row(place: Place, key: KeyName, value: &Value) -> Result<Row, SceneFault>
    ensures { Gives (λ r. r) result (row place key (view value.now)) }
{
    match four_integers(value) {
        Some(row) => Ok(row),
        None => broken(SceneRule::WrongType, place, key),
    }
}

impl<'a> Entry<'a> {
    /// The array of integers of a key, or none.
    #[tactic(auto, unfolding(crate::specs::Values::integers_of))]
    pub fn integers_of(&self, alloc: Global, key: KeyName) -> Result<List<i64>, SceneFault>
        ensures { Gives (λ ns. ns) result (integers_of self.now.place key (table_view self.now.members.now)) }
    {
        let place = self.place;
        match value_of(key, self.members) {
            None => Ok(List::new(alloc)),
            Some(value) => match array_of(value) {
                None => broken(SceneRule::WrongType, place, key),
                Some(items) => read_each(alloc, &IntegerOf { place, key }, items),
            },
        }
    }

    /// The array of a key that must be there.
    #[tactic(auto, unfolding(crate::specs::Values::required_array))]
    pub fn required_array(&self, key: KeyName) -> Result<&'a [Value], SceneFault>
        ensures { Gives (λ vs. map view vs.now) result (required_array self.now.place key (table_view self.now.members.now)) }
    {
        match value_of(key, self.members) {
            None => broken(SceneRule::MissingKey, self.place, key),
            Some(value) => match array_of(value) {
                None => broken(SceneRule::WrongType, self.place, key),
                Some(items) => Ok(items),
            },
        }
    }
}

// ---- tables

/// The members of an entry that has no keys but those of its table.
#[tactic(auto, unfolding(crate::specs::Values::entry))]
pub fn entry(place: Place, value: &Value) -> Result<&Table, SceneFault>
    ensures { Gives (λ t. table_view t.now) result (entry place (view value.now)) }
{
    match value.as_table() {
        None => broken(SceneRule::WrongType, place, KeyName::NoKey),
        Some(table) => {
            known(place, table)?;
            Ok(table)
        }
    }
}

fn entries(table: TableName, most: usize, value: &Value) -> Result<&[Value], SceneFault>
    ensures entries { Gives (λ vs. map view vs.now) result (entries table most (view value.now)) }
    ensures few { IfOk result (λ vs. length vs.now ≤ most) }
{
    let place = Place { table, position: 0 };
    match array_of(value) {
        None => broken(SceneRule::WrongType, place, KeyName::NoKey),
        Some(items) => {
            if items.len() <= most {
                Ok(items)
            } else {
                broken(SceneRule::TooMany, place, KeyName::NoKey)
            }
        }
    }
}

/// The entries of a table, none where the scene has no such key.
#[tactic(auto, unfolding(crate::specs::Values::entries_of))]
fn entries_of(table: TableName, most: usize, members: &Table) -> Result<&[Value], SceneFault>
    ensures entries { Gives (λ vs. map view vs.now) result (entries_of table most (table_view members.now)) }
    ensures few { IfOk result (λ vs. length vs.now ≤ most) }
{
    match find(members, table.name()) {
        None => Ok(&[]),
        Some(value) => entries(table, most, value),
    }
}

/// Reads an entry of a table by its keys, given the entries that were read before it.
pub trait EntryReader {
    type Item;

    /// What is known of the entries so far.
    ghost fits: { Self → Items Self.Item → Type 0 } = { λ _ _. Unit {0} };

    ghost reads: { Self → Items Self.Item → Place → Members → Checked Self.Item };

    fn read(&self, before: &[Self::Item], entry: &Entry<'_>) -> Result<Self::Item, SceneFault>
        requires so_far { fits self.now before.now }
        ensures value { Gives (λ x. x) result (reads self.now before.now entry.now.place (table_view entry.now.members.now)) }
        ensures keeps { IfOk result (λ x. fits self.now (before.now ++ x ∷ [])) };
}

/// The entries of a table, and what reads each.
#[derive(Clone, Copy)]
pub struct EntriesOf<R> {
    pub table: TableName,
    pub reader: R,
}

impl<R: EntryReader> Reader for EntriesOf<R> {
    type Item = R::Item;

    ghost most = { 2 ^ 32 };

    ghost fits = { λ s before. R.fits s.reader before };

    ghost reads = { λ s before d. entry_of s.table (R.reads s.reader) before d };

    #[tactic(auto, unfolding(crate::specs::Values::entry_of))]
    fn read(&self, before: &[R::Item], value: &Value) -> Result<R::Item, SceneFault> {
        let place = Place {
            table: self.table,
            position: before.len() as u32,
        };
        let members = entry(place, value)?;
        self.reader.read(before, &Entry { place, members })
    }
}

/// The entries of a table, each read in order.
#[tactic(auto, unfolding(crate::specs::Values::table_of))]
pub fn read_table<R: EntryReader>(
    alloc: Global,
    most: usize,
    reader: &EntriesOf<R>,
    members: &Table,
) -> Result<List<R::Item>, SceneFault>
where
    R::Item: Drop,
    requires few { most ≤ 2 ^ 32 }
    requires begins { R.fits reader.now.reader [] }
    ensures value { Gives (λ xs. xs) result (table_of reader.now.table most (R.reads reader.now.reader) (table_view members.now)) }
    ensures keeps { IfOk result (λ xs. R.fits reader.now.reader xs) }
    ensures few { IfOk result (λ xs. length xs ≤ most) }
{
    let values = entries_of(reader.table, most, members)?;
    read_each(alloc, reader, values)
}
