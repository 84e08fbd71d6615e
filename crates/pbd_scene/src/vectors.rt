// Vectors: arrays of three integers.
ghost use Rattle.std.specs.Prelude.{◌≡◌, ◌≤◌, ◌^◌, ◌≤ℤ◌, ◌*ℤ◌, pos, unsigned_abs, IfOk};
ghost use Rattle.toml.specs.Data.{item, no_items};
ghost use Rattle.toml.specs.View.{view, table_view, items_view};
ghost use Rattle.pbd_num.specs.Vectors.{Within, is_within, is_axis_within, zero_vector};
ghost use Rattle.pbd_scene.specs.Checks.{Gives, broken};
ghost use Rattle.pbd_scene.specs.Values.{value_of, three_of, three_integers, vector, required_vector, vector_or, members};

use crate::fault::{Place, SceneFault, SceneRule};
use crate::limit::Limit;
use crate::tables::KeyName;
use crate::values::{Entry, broken, value_of};
use pbd_num::Vec3;
use toml::Value;

/// The vector of these axes, where all are integers.
pub fn axes_of(x: &Value, y: &Value, z: &Value) -> Option<Vec3>
    ensures { result ≡ three_of (item (view x.now) (item (view y.now) (item (view z.now) no_items))) }
{
    let x = x.as_integer()?;
    let y = y.as_integer()?;
    let z = z.as_integer()?;
    Some(Vec3 { x, y, z })
}

fn three_of(items: &[Value]) -> Option<Vec3>
    ensures { result ≡ three_of (items_view items.now) }
{
    match items {
        [x, y, z] => axes_of(x, y, z),
        _ => None,
    }
}

fn three_integers(value: &Value) -> Option<Vec3>
    ensures { result ≡ three_integers (view value.now) }
{
    let items = value.as_array()?;
    three_of(items.as_slice())
}

fn vector(place: Place, key: KeyName, limit: i64, value: &Value) -> Result<Vec3, SceneFault>
    requires low { pos 0 ≤ℤ limit }
    requires high { unsigned_abs limit ≤ 2 ^ 30 }
    ensures value { Gives (λ v. v) result (vector place key limit (view value.now)) }
    ensures within { IfOk result (λ v. Within (2 ^ 30) v) }
{
    match three_integers(value) {
        None => broken(SceneRule::WrongType, place, key),
        Some(v) => {
            if is_inside(v, limit) {
                Ok(v)
            } else {
                broken(SceneRule::OutOfRange, place, key)
            }
        }
    }
}

fn is_axis_within(n: i64, limit: i64) -> bool
    requires low { pos 0 ≤ℤ limit }
    ensures { result ≡ is_axis_within limit n }
{
    -limit <= n && n <= limit
}

/// Whether each axis lies in -limit..=limit.
fn is_inside(v: Vec3, limit: i64) -> bool
    requires low { pos 0 ≤ℤ limit }
    ensures { result ≡ is_within limit v }
{
    let x = is_axis_within(v.x, limit);
    let y = is_axis_within(v.y, limit);
    let z = is_axis_within(v.z, limit);
    x & y & z
}

impl Limit {
    /// Whether each axis lies within it.
    pub fn holds(&self, v: Vec3) -> bool
        ensures { result ≡ is_within self.now.units v }
    {
        is_inside(v, self.units)
    }
}

impl Entry<'_> {
    /// The vector of a key that must be there.
    #[tactic(auto, unfolding(crate::specs::Values::required_vector))]
    pub fn required_vector(&self, key: KeyName, limit: &Limit) -> Result<Vec3, SceneFault>
        ensures value { Gives (λ v. v) result (required_vector self.now.place key limit.now.units (table_view self.now.members.now)) }
        ensures within { IfOk result (λ v. Within (2 ^ 30) v) }
    {
        match value_of(key, self.members) {
            None => broken(SceneRule::MissingKey, self.place, key),
            Some(value) => vector(self.place, key, limit.units, value),
        }
    }

    /// The vector of a key, or zero.
    #[tactic(auto, unfolding(crate::specs::Values::vector_or))]
    pub fn vector_or_zero(&self, key: KeyName, limit: i64) -> Result<Vec3, SceneFault>
        requires low { pos 0 ≤ℤ limit }
        requires high { unsigned_abs limit ≤ 2 ^ 30 }
        ensures value { Gives (λ v. v) result (vector_or self.now.place key limit zero_vector (table_view self.now.members.now)) }
        ensures within { IfOk result (λ v. Within (2 ^ 30) v) }
    {
        match value_of(key, self.members) {
            None => Ok(Vec3::ZERO),
            Some(value) => vector(self.place, key, limit, value),
        }
    }

    /// The vector of a key within twice the limit, or zero.
    pub fn velocity_or_zero(&self, key: KeyName, limit: &Limit) -> Result<Vec3, SceneFault>
        ensures value { Gives (λ v. v) result
            (vector_or self.now.place key (pos 2 *ℤ limit.now.units) zero_vector (table_view self.now.members.now)) }
        ensures within { IfOk result (λ v. Within (2 ^ 30) v) }
    {
        self.vector_or_zero(key, limit.twice())
    }
}
