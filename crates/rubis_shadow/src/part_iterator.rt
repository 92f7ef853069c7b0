//! The parts of a shadow, one after the other.

ghost use Rattle.std.specs.Prelude.{◌≡◌};
ghost use Rattle.std.specs.Iterator.{item_count, YieldsFirst};
ghost use Rattle.rubis_shadow.specs.Shadows.{parts};

use crate::parts::EffectRef;
use crate::shadows::Shadow;
use rubis_schema::Id;
use std::marker::Model;

/// The parts of a shadow, in order. Contracts see those that are left.
#[derive(Drop)]
pub struct Effects<'a> {
    id: Id,
    red: u32,
    shadow: &'a Shadow,
    // How many parts were given.
    given: u8,
}

impl<'a> Model for Effects<'a> {
    ghost use Rattle.std.specs.Prelude.{List, drop, ◌≤◌};
    ghost use Rattle.std.specs.Coded.{coded_list};
    ghost use Rattle.rubis_shadow.specs.declared.keyed_change.Effect.{Effect};
    ghost use Rattle.rubis_shadow.specs.contracts.keyed_change.Effect as effect;
    ghost use Rattle.rubis_shadow.specs.Shadows.{parts};
    ghost use Rattle.rubis_shadow.specs.declared.parts.TheConstants.{PARTS_MAX};

    ghost Value = { List Effect };

    ghost coded = { coded_list effect.the_row.coded };

    ghost view = { λ e. drop e.given (parts e.id e.red e.shadow.now) };

    ghost invariant = { λ e. e.given ≤ PARTS_MAX };
}

impl Shadow {
    /// The parts of the shadow with that id and red number, in order: one to three.
    pub fn effects(&self, id: Id, red: u32) -> Effects<'_>
        ensures { result ≡ parts id red self.now }
    {
        Effects {
            id,
            red,
            shadow: self,
            given: 0,
        }
    }
}

impl<'a> Iterator for Effects<'a> {
    type Item = EffectRef<'a>;

    ghost next_gives = { YieldsFirst (λ left. left) };

    ghost remaining = { item_count (λ left. left) };

    fn next(&mut self) -> Option<EffectRef<'a>> {
        let part = self.shadow.effect(self.id, self.red, self.given)?;
        self.given += 1;
        Some(part)
    }
}
