//! At most three keys, and those of a shadow's parts.

ghost use Rattle.std.specs.Prelude.{◌≡◌, ◌++◌};
ghost use Rattle.std.specs.Option.{option_to_list};
ghost use Rattle.std.specs.Iterator.{item_count, YieldsFirst};
ghost use Rattle.rubis_shadow.specs.Shadows.{footprint_of};

use crate::shadows::Shadow;
use rubis_schema::{Id, RowKey};
use std::marker::Model;

/// At most three keys, in order. Contracts see those that are left.
#[derive(Drop)]
pub struct Keys {
    first: Option<RowKey>,
    second: Option<RowKey>,
    third: Option<RowKey>,
}

impl Model for Keys {
    ghost use Rattle.std.specs.Prelude.{List, ◌++◌};
    ghost use Rattle.std.specs.Option.{option_to_list};
    ghost use Rattle.rubis_schema.specs.declared.row_keys.RowKey.{RowKey};

    ghost Value = { List RowKey };

    ghost view = { λ k. option_to_list k.first ++ (option_to_list k.second ++ option_to_list k.third) };
}

/// Those of these keys that there are.
pub fn keys_of(first: Option<RowKey>, second: Option<RowKey>, third: Option<RowKey>) -> Keys
    ensures { result ≡ option_to_list first ++ (option_to_list second ++ option_to_list third) }
{
    Keys {
        first,
        second,
        third,
    }
}

impl Shadow {
    /// The keys of the shadow's parts, in order; `id` is the shadow's own.
    #[tactic(auto, using(crate::proofs::Footprint::all_keys))]
    pub fn footprint(&self, id: Id) -> Keys
        ensures { result ≡ footprint_of id self.now }
    {
        keys_of(self.key(id, 0), self.key(id, 1), self.key(id, 2))
    }
}

impl Iterator for Keys {
    type Item = RowKey;

    ghost next_gives = { YieldsFirst (λ left. left) };

    ghost remaining = { item_count (λ left. left) };

    fn next(&mut self) -> Option<RowKey> {
        if let Some(key) = self.first.take() {
            return Some(key);
        }
        if let Some(key) = self.second.take() {
            return Some(key);
        }
        self.third.take()
    }
}
