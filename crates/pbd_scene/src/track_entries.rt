// The `[[track]]` entries, before it is looked at which particles they name.
ghost use Rattle.std.specs.Prelude.{[], ◌≡◌, ◌<◌, ◌+◌, ◌^◌, length, map, nat_lt, true, ◌&&◌};
ghost use Rattle.toml.specs.View.{view, table_view};
ghost use Rattle.pbd_scene.specs.Checks.{Gives, each};
ghost use Rattle.pbd_scene.specs.Entries.{row_of, step_number, key_of, step_of, steps_rise, few_rows, rising_path, path_of, track_of};

use crate::arrays::{EntryReader, row};
use crate::each::{Reader, read_each};
use crate::fault::{Place, SceneFault, SceneRule};
use crate::limit::Limit;
use crate::raw::{Row, TrackEntry};
use crate::tables::KeyName;
use crate::values::{Entry, broken};
use pbd_world::{Key, LAST_STEP, List};
use std::alloc::Global;
use toml::Value;

#[derive(Clone, Copy)]
pub struct Tracks {
    pub limit: Limit,
    pub alloc: Global,
}

#[derive(Clone, Copy)]
struct Rows {
    place: Place,
}

impl Reader for Rows {
    type Item = Row;

    ghost most = { 2 ^ 64 };

    ghost reads = { λ s before d. row_of s.place before d };

    fn read(&self, _before: &[Row], value: &Value) -> Result<Row, SceneFault> {
        row(self.place, KeyName::Keys, value)
    }
}

#[derive(Clone, Copy)]
struct Keys {
    place: Place,
    limit: Limit,
}

#[tactic(auto, unfolding(crate::specs::Entries::step_number))]
fn step_number(place: Place, n: i64) -> Result<u32, SceneFault>
    ensures { Gives (λ n. n) result (step_number place n) }
{
    if 0 <= n && n <= i64::from(LAST_STEP) {
        Ok(n as u32)
    } else {
        broken(SceneRule::OutOfRange, place, KeyName::Keys)
    }
}

#[tactic(auto, unfolding(crate::specs::Entries::key_of))]
fn key_of(place: Place, limit: &Limit, _before: &[Key], value: &Value) -> Result<Key, SceneFault>
    ensures { Gives (λ k. k) result (key_of place limit.now.units _before.now (view value.now)) }
{
    let row = row(place, KeyName::Keys, value)?;
    let step = step_number(place, row.step)?;
    place.expect(limit.holds(row.place), SceneRule::OutOfRange, KeyName::Keys)?;
    Ok(Key {
        step,
        place: row.place,
    })
}

impl Reader for Keys {
    type Item = Key;

    ghost most = { 2 ^ 64 };

    ghost reads = { λ s before d. key_of s.place s.limit.units before d };

    fn read(&self, before: &[Key], value: &Value) -> Result<Key, SceneFault> {
        key_of(self.place, &self.limit, before, value)
    }
}

fn rises_at(keys: &[Key], i: usize) -> bool
    requires { i + 1 < length keys.now }
    ensures { result ≡ nat_lt (step_of keys.now i) (step_of keys.now (i + 1)) }
{
    keys[i].step < keys[i + 1].step
}

#[tactic(auto, unfolding(crate::specs::Entries::steps_rise, pbd_mesh::specs::Numbered::all_below), using(pbd_mesh::proofs::Below::below_next, pbd_mesh::proofs::Below::not_below, pbd_mesh::proofs::Below::below_all))]
fn steps_rise(keys: &[Key]) -> bool
    ensures { result ≡ steps_rise keys.now }
{
    for i in 0..keys.len().saturating_sub(1) {
        if !rises_at(keys, i) {
            return false;
        }
    }
    true
}

/// Refuses keys that are not all rows, or too many.
#[tactic(auto, unfolding(crate::specs::Entries::few_rows))]
fn few_rows(alloc: Global, place: Place, values: &[Value]) -> Result<(), SceneFault>
    ensures { Gives (λ x. x) result (few_rows place (map view values.now)) }
{
    let rows = read_each(alloc, &Rows { place }, values)?;
    drop(rows);
    place.expect(values.len() <= 1024, SceneRule::TooMany, KeyName::Keys)
}

/// The keys of a track, each in its range.
fn keys_of(
    alloc: Global,
    place: Place,
    limit: &Limit,
    values: &[Value],
) -> Result<List<Key>, SceneFault>
    ensures { Gives (λ ks. ks) result (each (key_of place limit.now.units) [] (map view values.now)) }
{
    let keys = Keys {
        place,
        limit: *limit,
    };
    read_each(alloc, &keys, values)
}

/// The same, where there is at least one, and each step is below the next.
#[tactic(auto, unfolding(crate::specs::Entries::rising_path))]
fn rising_path(
    alloc: Global,
    place: Place,
    limit: &Limit,
    values: &[Value],
) -> Result<List<Key>, SceneFault>
    ensures { Gives (λ ks. ks) result (rising_path place limit.now.units (map view values.now)) }
{
    let keys = keys_of(alloc, place, limit, values)?;
    if 0 < keys.len() && steps_rise(keys.as_slice()) {
        Ok(keys)
    } else {
        broken(SceneRule::BadTrack, place, KeyName::Keys)
    }
}

#[tactic(auto, unfolding(crate::specs::Entries::path_of))]
fn path_of(alloc: Global, limit: &Limit, entry: &Entry<'_>) -> Result<List<Key>, SceneFault>
    ensures { Gives (λ ks. ks) result (path_of entry.now.place limit.now.units (table_view entry.now.members.now)) }
{
    let values = entry.required_array(KeyName::Keys)?;
    few_rows(alloc, entry.place, values)?;
    rising_path(alloc, entry.place, limit, values)
}

impl EntryReader for Tracks {
    type Item = TrackEntry;

    ghost reads = { λ s before place ms. track_of s.limit.units place ms };

    #[tactic(auto, unfolding(crate::specs::Entries::track_of))]
    fn read(&self, _before: &[TrackEntry], entry: &Entry<'_>) -> Result<TrackEntry, SceneFault> {
        let particle = entry.required_any_integer(KeyName::Particle)?;
        let keys = path_of(self.alloc, &self.limit, entry)?;
        Ok(TrackEntry { particle, keys })
    }
}
