// The keys of a table, and the kinds of single values that they take.
ghost use Rattle.std.specs.Prelude.{◌≡◌, IsTrue, ◌≤◌, ◌≤ℤ◌, ◌*ℤ◌, ◌^◌, neg_ℤ, pos, unsigned_abs, IfOk, option_map, string_bytes, Err};
ghost use Rattle.std.specs.List.{list_all};
ghost use Rattle.std.specs.BTreeMap.{keys};
ghost use Rattle.toml.specs.View.{view, table_view};
ghost use Rattle.toml.specs.Data.{get_member};
ghost use Rattle.pbd_scene.specs.Checks.{Gives, broken, expect};
ghost use Rattle.pbd_scene.specs.Keys.{is_key_of, is_table_of, is_known, known};
ghost use Rattle.pbd_scene.specs.Values.{value_of, any_integer, integer, required_any_integer, required_integer, optional_integer, integer_or, required_count, count_or, boolean_or, members};

use crate::fault::{Place, SceneFault, SceneRule};
use crate::limit::Limit;
use crate::tables::{KeyName, TableName, all_tables, entry_keys};
use toml::{Table, Value};

pub fn broken<T>(rule: SceneRule, place: Place, key: KeyName) -> Result<T, SceneFault>
    ensures { result ≡ Err (SceneFault.Refused rule place.table place.position key) }
{
    Err(SceneFault::Refused {
        rule,
        table: place.table,
        position: place.position,
        key,
    })
}

impl Place {
    /// Refuses what stands here where a test doesn't hold.
    pub fn expect(&self, test: bool, rule: SceneRule, key: KeyName) -> Result<(), SceneFault>
        ensures value { Gives (λ x. x) result (expect test rule self.now key) }
        ensures holds { IfOk result (λ _. IsTrue test) }
    {
        if test {
            Ok(())
        } else {
            broken(rule, *self, key)
        }
    }
}

// ---- which keys there are

fn is_key_of(names: &[KeyName], name: &str) -> bool
    ensures { result ≡ is_key_of names.now name.now }
{
    names.iter().any(|key| name == key.name())
}

fn is_table_of(names: &[TableName], name: &str) -> bool
    ensures { result ≡ is_table_of names.now name.now }
{
    names.iter().any(|table| name == table.name())
}

#[tactic(auto, unfolding(crate::specs::Keys::is_known))]
fn is_known(table: TableName, name: &str) -> bool
    ensures { result ≡ is_known table name.now }
{
    match table {
        TableName::Scene => is_key_of(entry_keys(TableName::Scene), name)
            || is_table_of(all_tables(), name),
        _ => is_key_of(entry_keys(table), name),
    }
}

fn are_known(table: TableName, members: &Table) -> bool
    ensures { result ≡ list_all (λ k. is_known table (string_bytes k)) (keys members.now) }
{
    members.keys().all(|name| is_known(table, name.as_str()))
}

/// Refuses a table with a key that it may not have.
#[tactic(auto, unfolding(crate::specs::Keys::known))]
pub fn known(place: Place, members: &Table) -> Result<(), SceneFault>
    ensures { Gives (λ x. x) result (known place (table_view members.now)) }
{
    let all = are_known(place.table, members);
    place.expect(all, SceneRule::UnknownKey, KeyName::NoKey)
}

pub fn find<'a>(members: &'a Table, name: &str) -> Option<&'a Value>
    ensures { option_map (λ v. view v.now) result ≡ get_member name.now (table_view members.now) }
{
    members.get(name)
}

pub fn value_of(key: KeyName, members: &Table) -> Option<&Value>
    ensures { option_map (λ v. view v.now) result ≡ value_of key (table_view members.now) }
{
    find(members, key.name())
}

// ---- the values of keys

pub fn any_integer(place: Place, key: KeyName, value: &Value) -> Result<i64, SceneFault>
    ensures { Gives (λ n. n) result (any_integer place key (view value.now)) }
{
    match value.as_integer() {
        Some(n) => Ok(n),
        None => broken(SceneRule::WrongType, place, key),
    }
}

/// The keys of an entry of a table, or of the scene itself, with their values.
#[derive(Drop)]
pub struct Entry<'a> {
    pub place: Place,
    pub members: &'a Table,
}

impl Entry<'_> {
    fn integer(&self, key: KeyName, low: i64, high: i64, value: &Value) -> Result<i64, SceneFault>
        ensures value { Gives (λ n. n) result (integer self.now.place key low high (view value.now)) }
        ensures low { IfOk result (λ n. low ≤ℤ n) }
        ensures high { IfOk result (λ n. n ≤ℤ high) }
    {
        let n = any_integer(self.place, key, value)?;
        if low <= n && n <= high {
            Ok(n)
        } else {
            broken(SceneRule::OutOfRange, self.place, key)
        }
    }

    /// The integer of a key that must be there.
    #[tactic(auto, unfolding(crate::specs::Values::required_any_integer))]
    pub fn required_any_integer(&self, key: KeyName) -> Result<i64, SceneFault>
        ensures { Gives (λ n. n) result (required_any_integer self.now.place key (table_view self.now.members.now)) }
    {
        match value_of(key, self.members) {
            None => broken(SceneRule::MissingKey, self.place, key),
            Some(value) => any_integer(self.place, key, value),
        }
    }

    /// The integer in low..=high of a key that must be there.
    #[tactic(auto, unfolding(crate::specs::Values::required_integer))]
    pub fn required_integer(&self, key: KeyName, low: i64, high: i64) -> Result<i64, SceneFault>
        ensures value { Gives (λ n. n) result (required_integer self.now.place key low high (table_view self.now.members.now)) }
        ensures low { IfOk result (λ n. low ≤ℤ n) }
        ensures high { IfOk result (λ n. n ≤ℤ high) }
    {
        match value_of(key, self.members) {
            None => broken(SceneRule::MissingKey, self.place, key),
            Some(value) => self.integer(key, low, high, value),
        }
    }

    /// The integer of a key that must be there, at most so much in size.
    pub fn required_within(&self, key: KeyName, most: i64) -> Result<i64, SceneFault>
        requires { unsigned_abs most ≤ 2 ^ 40 }
        ensures { Gives (λ n. n) result
            (required_integer self.now.place key (neg_ℤ most) most (table_view self.now.members.now)) }
    {
        self.required_integer(key, -most, most)
    }

    /// The integer in low..=high of a key, if it is there.
    #[tactic(auto, unfolding(crate::specs::Values::optional_integer))]
    pub fn optional_integer(
        &self,
        key: KeyName,
        low: i64,
        high: i64,
    ) -> Result<Option<i64>, SceneFault>
        ensures { Gives (λ n. n) result (optional_integer self.now.place key low high (table_view self.now.members.now)) }
    {
        match value_of(key, self.members) {
            None => Ok(None),
            Some(value) => Ok(Some(self.integer(key, low, high, value)?)),
        }
    }

    /// The integer in low..=high of a key, or the default where it isn't there.
    #[tactic(auto, unfolding(crate::specs::Values::integer_or, crate::specs::Values::optional_integer))]
    pub fn integer_or(
        &self,
        key: KeyName,
        low: i64,
        high: i64,
        default: i64,
    ) -> Result<i64, SceneFault>
        requires low { low ≤ℤ default }
        requires high { default ≤ℤ high }
        ensures value { Gives (λ n. n) result (integer_or self.now.place key low high default (table_view self.now.members.now)) }
        ensures low { IfOk result (λ n. low ≤ℤ n) }
        ensures high { IfOk result (λ n. n ≤ℤ high) }
    {
        match value_of(key, self.members) {
            None => Ok(default),
            Some(value) => self.integer(key, low, high, value),
        }
    }

    /// The number in low..=high of a key that must be there.
    #[tactic(auto, unfolding(crate::specs::Values::required_count))]
    pub fn required_count(&self, key: KeyName, low: u32, high: u32) -> Result<u32, SceneFault>
        ensures value { Gives (λ n. n) result (required_count self.now.place key low high (table_view self.now.members.now)) }
        ensures high { IfOk result (λ n. n ≤ high) }
    {
        let n = self.required_integer(key, low as i64, high as i64)?;
        Ok(n as u32)
    }

    /// The number in low..=high of a key, or the default where it isn't there.
    #[tactic(auto, unfolding(crate::specs::Values::count_or))]
    pub fn count_or(
        &self,
        key: KeyName,
        low: u16,
        high: u16,
        default: u16,
    ) -> Result<u16, SceneFault>
        requires low { low ≤ default }
        requires high { default ≤ high }
        ensures value { Gives (λ n. n) result (count_or self.now.place key low high default (table_view self.now.members.now)) }
        ensures high { IfOk result (λ n. n ≤ high) }
    {
        let n = self.integer_or(key, low as i64, high as i64, default as i64)?;
        Ok(n as u16)
    }

    /// A length of at most four limits, if it is there.
    pub fn optional_length(&self, key: KeyName, limit: &Limit) -> Result<Option<i64>, SceneFault>
        ensures { Gives (λ n. n) result
            (optional_integer self.now.place key (pos 0) (pos 4 *ℤ limit.now.units) (table_view self.now.members.now)) }
    {
        self.optional_integer(key, 0, limit.four_times())
    }

    /// A length of at most four limits, or 0.
    pub fn length_or_zero(&self, key: KeyName, limit: &Limit) -> Result<i64, SceneFault>
        ensures { Gives (λ n. n) result
            (integer_or self.now.place key (pos 0) (pos 4 *ℤ limit.now.units) (pos 0) (table_view self.now.members.now)) }
    {
        self.integer_or(key, 0, limit.four_times(), 0)
    }

    /// A length of 1 unit to the limit that must be there.
    pub fn required_length(&self, key: KeyName, limit: &Limit) -> Result<i64, SceneFault>
        ensures value { Gives (λ n. n) result
            (required_integer self.now.place key (pos 1) limit.now.units (table_view self.now.members.now)) }
        ensures size { IfOk result (λ n. unsigned_abs n ≤ 2 ^ 29) }
    {
        self.required_integer(key, 1, limit.units)
    }

    /// Whether a key is true, or the default where it isn't there.
    #[tactic(auto, unfolding(crate::specs::Values::boolean_or))]
    pub fn boolean_or(&self, key: KeyName, default: bool) -> Result<bool, SceneFault>
        ensures { Gives (λ b. b) result (boolean_or self.now.place key default (table_view self.now.members.now)) }
    {
        match value_of(key, self.members) {
            None => Ok(default),
            Some(value) => match value.as_bool() {
                None => broken(SceneRule::WrongType, self.place, key),
                Some(b) => Ok(b),
            },
        }
    }
}
