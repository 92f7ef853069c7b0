//! The misfits of all shards, in the order of the log.

ghost use Rattle.std.specs.Prelude.{IfOk};
ghost use Rattle.std.specs.List.Sorted.{IsPermutation, IsNonDecreasingBy};
ghost use Rattle.rubis_shard.specs.Holdings.{all_misfits};
ghost use Rattle.rubis_pieces.specs.Misfits.{misfit_order, AreOfTheLog};

use rubis_shadow::Misfit;
use rubis_shard::Tables;
use std::alloc::{AllocError, Global};

/// The misfits of all shards, by entry and then by part: those of the log that the shards hold.
pub fn misfits(alloc: Global, tables: &Tables) -> Result<Vec<Misfit>, AllocError>
    ensures all { IfOk result (λ misfits. IsPermutation (all_misfits tables.now) misfits.items) }
    ensures order { IfOk result (λ misfits. IsNonDecreasingBy misfit_order misfits.items) }
    ensures log { IfOk result (λ misfits. AreOfTheLog tables.now misfits.items) }
{
    let mut list = Vec::new(alloc);
    for shard in tables.shards() {
        for misfit in shard.misfits() {
            list.push(*misfit)?;
        }
    }
    list.sort_unstable_by_key(|misfit| u64::from(misfit.entry) * 256 + u64::from(misfit.part));
    Ok(list)
}
