//! Each limit as a number. Elsewhere contracts and definitions name the constants, and would hold of any others.

ghost use Rattle.std.specs.Prelude.{◌≡◌};
ghost use Rattle.rubis_numbers.specs.declared.numbers.TheConstants.{RATING_MAX};
ghost use Rattle.rubis_schema.specs.declared.limits.TheConstants.{SITES_MAX, COUNTED_MAX, SHARDS_MAX, WORKERS_MAX, BATCH_MAX, KEEP_MAX};
ghost use Rattle.rubis_schema.specs.declared.limits.TheConstants.{RECORDS_MAX, SEQ_MAX, COUNT_MAX, TURN_MAX, PASS_MAX, QUANTITY_MAX};
ghost use Rattle.rubis_schema.specs.declared.limits.TheConstants.{AMOUNT_MAX, CATEGORIES, CAT_MAX, NICK_MAX, NAME_MAX, TEXT_MAX};

/// The limits of the records, of the tables and of a run are these numbers. Amounts are those of bids, start prices and prices
/// at once; counts those of messages, red numbers and the number that a token has issued; texts are in bytes.
pub fn limits_are_these_numbers()
    ensures sites { (SITES_MAX ≡ 16) × (COUNTED_MAX ≡ 16) }
    ensures shards { SHARDS_MAX ≡ 64 }
    ensures workers { WORKERS_MAX ≡ 16 }
    ensures batch { BATCH_MAX ≡ 65536 }
    ensures keep { KEEP_MAX ≡ 1000000 }
    ensures records { RECORDS_MAX ≡ 4000000 }
    ensures numbers { SEQ_MAX ≡ 1000000 }
    ensures counts { COUNT_MAX ≡ 1000000 }
    ensures turns { TURN_MAX ≡ 1000000000 }
    ensures passes { PASS_MAX ≡ 99 }
    ensures quantities { QUANTITY_MAX ≡ 1000000 }
    ensures amounts { AMOUNT_MAX ≡ 1000000000000 }
    ensures categories { (CATEGORIES ≡ 1000) × (CAT_MAX ≡ 999) }
    ensures ratings { RATING_MAX ≡ 5 }
    ensures texts { (NICK_MAX ≡ 20) × (NAME_MAX ≡ 64) × (TEXT_MAX ≡ 200) }
{}
