//! The room that a team's threads need, taken before they start.

ghost use Rattle.std.specs.Prelude.{◌≡◌, ◌+◌, ◌<◌, [], vec_len, IfOk};
ghost use Rattle.std.specs.List.{All};
ghost use Rattle.rubis_workers.specs.Work.{IsRoom};

use rubis_board::Poster;
use rubis_pieces::{Done, Places};
use std::alloc::{AllocError, Global};

/// All room that the workers take.
#[derive(Drop)]
pub struct Rooms {
    pub poster: Poster,
    pub places: Places,
    /// For the results of the caller's thread, which is a worker too.
    pub mine: Vec<Done>,
    /// For those of each further worker.
    pub others: Vec<Vec<Done>>,
}

impl Rooms {
    /// Room for `pieces` pieces, with `workers` workers, any one of which may take all of the pieces.
    pub fn new(alloc: Global, pieces: usize, workers: usize) -> Result<Rooms, AllocError>
        requires { (0 < pieces) × (0 < workers) }
        ensures poster { IfOk result (λ rooms. (rooms.poster.capacity ≡ pieces) × (rooms.poster.posted ≡ [])) }
        ensures places { IfOk result (λ rooms. rooms.places ≡ pieces) }
        ensures mine { IfOk result (λ rooms. IsRoom pieces rooms.mine) }
        ensures others { IfOk result (λ rooms. All (IsRoom pieces) rooms.others.items) }
        ensures workers { IfOk result (λ rooms. vec_len rooms.others + 1 ≡ workers) }
    {
        let poster = Poster::new(alloc, pieces)?;
        let places = Places::new(alloc, pieces)?;
        let mine = Vec::with_capacity(alloc, pieces)?;
        let mut others = Vec::with_capacity(alloc, workers)?;
        for _ in 1..workers {
            others.push(Vec::with_capacity(alloc, pieces)?)?;
        }
        Ok(Rooms {
            poster,
            places,
            mine,
            others,
        })
    }
}
