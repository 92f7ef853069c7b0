//! The laws, each with its statement in specs/Laws.

ghost use Rattle.rubis_model.specs.Laws.{PartsCommute};
ghost use Rattle.rubis_shard.specs.Laws.{BatchesFoldAtHome, ShardsAreASet, ShardsHaveTheTables};

/// Shards that hold a log are one set and have its tables, together. With a batch folded on, each part at its home, they
/// hold the log with the batch. Parts on different keys may be done in either order.
pub fn shards_hold_logs()
    ensures set { ShardsAreASet }
    ensures tables { ShardsHaveTheTables }
    ensures batch { BatchesFoldAtHome }
    ensures commute { PartsCommute }
{}
