//! A share: the parts of a batch that one shard folds.

use rubis_schema::Items;
use rubis_shadow::Numbered;

/// The parts of a batch whose home is one shard: its number, and the parts in order of entry and part.
pub struct Share {
    pub number: usize,
    pub effects: Items<Numbered>,
}

impl Drop for Share {
    // Proved here, once: a derived drop is proved anew in each crate that lets a share go.
    fn drop(self) {
        let Share {
            number: _,
            effects: _,
        } = self;
    }
}
