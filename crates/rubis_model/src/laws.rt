//! The laws that a site's crates rest on, each with its statement in specs/Laws.

ghost use Rattle.rubis_model.specs.Laws.{PartsCommute, FoldsBatchByBatch, RowsAreAtHome, SharesFoldToTheWhole, MisfitsFallInPlace, SettlingHasOneOutcome};

/// Parts on different keys may be done in either order, with the same tables and misfits.
pub fn parts_commute()
    ensures { PartsCommute }
{}

/// A log may be folded batch by batch.
pub fn folds_batch_by_batch()
    ensures { FoldsBatchByBatch }
{}

/// Each row is held by its home shard, and a shard that folds its share comes to hold its part of the whole.
pub fn shares_fold_to_the_whole()
    ensures home { RowsAreAtHome }
    ensures part { SharesFoldToTheWhole }
{}

/// The misfits of a batch stand in the order of their places, which fixes their list.
pub fn misfits_fall_in_place()
    ensures { MisfitsFallInPlace }
{}

/// What a log and its waiting messages settle to is given by `settle`, and is nothing else.
pub fn settling_has_one_outcome()
    ensures { SettlingHasOneOutcome }
{}
