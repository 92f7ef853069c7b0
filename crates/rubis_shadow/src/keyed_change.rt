//! A change of the row at a key.

ghost use Rattle.std.specs.Prelude.{◌≡◌, IfOk};
ghost use Rattle.rubis_shadow.specs.Freed.{FreesOnlyNicks, FreesOnlyNicks-prop};

use crate::changes::Change;
use rubis_schema::RowKey;
use std::alloc::AllocError;

/// One part of a shadow: a change of the row at a key. Only a nickname's key is given up: no other row is ever removed.
#[derive(Drop)]
pub struct Effect {
    pub key: RowKey,
    pub change: Change,
    pub ghost frees: { FreesOnlyNicks key change } by { FreesOnlyNicks-prop key change },
}

impl Effect {
    /// An equal effect.
    pub fn copy(&self) -> Result<Effect, AllocError>
        ensures { IfOk result (λ effect. effect ≡ self.now) }
    {
        Ok(Effect {
            key: self.key,
            change: self.change.copy()?,
        })
    }
}
