//! Which shard a key is at home on.

ghost use Rattle.std.specs.Prelude.{◌≡◌, ◌+◌, ◌*◌, ◌<◌, ◌≤◌, length, sum};
ghost use Rattle.rubis_schema.specs.Keys.{home};

use crate::ids::Id;
use crate::limits::NICK_MAX;
use crate::row_keys::RowKey;

// The sum of at most `NICK_MAX` bytes.
fn sum_of(bytes: &[u8]) -> u64
    requires { length bytes.now ≤ NICK_MAX }
    ensures { result ≡ sum bytes.now }
{
    bytes.iter().map(|byte| u64::from(*byte)).sum()
}

// The number of an id in a table that, modulo the number of shards, is its home shard.
#[inline(always)]
fn id_sum(table: u64, id: Id) -> u64
    requires { table < 7 }
    ensures { result ≡ table * 7 + id.site * 31 + id.seq }
{
    table * 7 + u64::from(id.site) * 31 + u64::from(id.seq)
}

/// The home shard of a key, among `shards` shards.
#[tactic(auto, unfolding(crate::specs::Keys::home))]
#[inline(always)]
pub fn shard_of(key: &RowKey, shards: usize) -> usize
    requires { 0 < shards }
    ensures home { result ≡ home shards key.now }
    ensures below { result < shards }
{
    let place = match key {
        RowKey::User(id) => id_sum(0, *id),
        RowKey::Item(id) => id_sum(1, *id),
        RowKey::Bid(id) => id_sum(2, *id),
        RowKey::Purchase(id) => id_sum(3, *id),
        RowKey::Comment(id) => id_sum(4, *id),
        RowKey::Nick(nick) => sum_of(nick.as_bytes()),
        RowKey::Cat(cat) => u64::from(*cat),
    };
    (place % shards as u64) as usize
}
