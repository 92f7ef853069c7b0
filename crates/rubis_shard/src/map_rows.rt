//! The rows of one map: entered and changed.

ghost use Rattle.std.specs.Prelude.{◌≡◌, ◌+◌, ◌<◌, ◌≤◌, Some, None, is_none, cond, true, false};
ghost use Rattle.indexmap.specs.IndexMap.{get, insert_entry, spare};
ghost use Rattle.rubis_schema.specs.declared.rows.Row.{Row};
ghost use Rattle.rubis_shard.specs.Rows.{no_row, IsAltered, IsChanged};

use indexmap::IndexMap;
use rubis_schema::Row;
use rubis_shadow::{Change, Fate, MisfitKind};
use std::hash::{BuildHasher, Hash};

/// Puts the row at the key where none is there, and says whether it did. There is room for it.
#[inline(always)]
pub fn put_in<K: Eq + Hash + Drop, S: BuildHasher>(
    rows: &mut IndexMap<K, Row, S>,
    key: K,
    row: Row,
) -> bool
    requires { 0 < spare rows.old }
    ensures free { result ≡ is_none (get K.eq rows.old key) }
    ensures put { result ≡ true → rows.new.entries ≡ insert_entry K.eq rows.old.entries key row }
    ensures found { result ≡ true → (q : K) → get K.eq rows.new q ≡ cond (K.eq key q) (Some row) (get K.eq rows.old q) }
    ensures same { result ≡ false → rows.new.entries ≡ rows.old.entries }
    ensures room { spare rows.old ≤ spare rows.new + 1 }
{
    if rows.contains_key(&key) {
        return false;
    }
    let Ok(_) = rows.insert(key, row) else {
        unreachable!()
    };
    true
}

/// Changes the row at the key where it stands, if there is one. Where the row doesn't stay, the caller removes it.
#[inline(always)]
pub fn alter_in<K: Eq + Hash + Drop, S: BuildHasher>(
    rows: &mut IndexMap<K, Row, S>,
    key: &K,
    change: &Change,
) -> Fate
    ensures none { get K.eq rows.old key.now ≡ None → (rows.new.entries ≡ rows.old.entries) × (result ≡ no_row) }
    ensures some { (was : Row) → get K.eq rows.old key.now ≡ Some was → IsAltered K.eq rows.old.entries rows.new.entries key.now change.now was result }
    ensures room { spare rows.new ≡ spare rows.old }
{
    let Some(row) = rows.get_mut(key) else {
        return Fate {
            stays: true,
            misfit: Some(MisfitKind::NoRow),
        };
    };
    change.alter(row)
}

/// Does a change of the row at the key, if there is one, and says whether it removed the row.
#[inline(always)]
pub fn change_in<K: Eq + Hash + Drop, S: BuildHasher>(
    rows: &mut IndexMap<K, Row, S>,
    key: &K,
    change: &Change,
) -> Fate
    ensures none { get K.eq rows.old key.now ≡ None → (rows.new.entries ≡ rows.old.entries) × (result ≡ no_row) }
    ensures some { (was : Row) → get K.eq rows.old key.now ≡ Some was → IsChanged K.eq rows.old.entries rows.new.entries key.now change.now was result }
    ensures room { spare rows.old ≤ spare rows.new }
{
    let fate = alter_in(rows, key, change);
    if !fate.stays {
        rows.swap_remove(key);
    }
    fate
}
