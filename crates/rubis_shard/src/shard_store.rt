//! A shard as the store that shares are folded on.

ghost use Rattle.std.specs.Prelude.{◌+◌, ◌≤◌};
ghost use Rattle.std.specs.Vec.{vec_len, vec_capacity};
ghost use Rattle.rubis_shard.specs.Rows.{HasRoomForRows};

use crate::row_map::Rows;
use rubis_shadow::Misfit;

/// The rows and misfits of a shard. There is room for `spare` more parts, whatever they do.
#[derive(Drop)]
pub struct Store {
    pub rows: Rows,
    pub misfits: Vec<Misfit>,
    pub spare: usize,
    ghost rows_room: { HasRoomForRows rows spare },
    ghost misfits_room: { vec_len misfits + spare ≤ vec_capacity misfits },
}
