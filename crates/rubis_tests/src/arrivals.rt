//! For tests: a site of two, and calls that have messages arrive there.

ghost use Rattle.std.specs.Prelude.{◌≡◌};

use crate::records::{ANN, BOB, CUP, Window, message};
use crate::rigs::Rig;
use rubis_message::Arrival;
use rubis_world::{Config, Gate, Site};
use std::alloc::Global;
use std::test::Fail;

/// One of two sites.
#[derive(Drop)]
pub struct Twin<G: Gate> {
    pub site: Site<G>,
    ghost two: { site.place.sites ≡ 2 },
}

/// The record of a comment on the cup, as the message of site 0 that follows its first `before`.
pub fn comment_behind(alloc: Global, before: u32) -> Result<String, Fail> {
    let seq = before.saturating_add(1);
    let text = format!(in alloc; "msg,1,0,{seq},0,{before}:0,comment,0.3,0.2,0.1,1,x")?;
    Ok(text)
}

/// `count` messages, from three on: of two users, an item, and comments on it.
pub fn many_messages(alloc: Global, count: u32) -> Result<Window, Fail> {
    let mut window = Window::of(alloc, &[ANN, BOB, CUP])?;
    for before in 3..count {
        window.push(alloc, &comment_behind(alloc, before)?)?;
    }
    Ok(window)
}

/// Two comments that follow the first three messages.
pub fn two_comments(alloc: Global) -> Result<Window, Fail> {
    let (first, second) = (comment_behind(alloc, 3)?, comment_behind(alloc, 4)?);
    Ok(Window::of(alloc, &[first.as_str(), second.as_str()])?)
}

impl<G: Gate + Drop> Twin<G> {
    /// Site `site` of two, with batches of `batch` messages, of which it keeps `keep`.
    pub fn new(
        alloc: Global,
        site: u8,
        shards: u8,
        workers: u8,
        batch: u32,
        keep: u32,
        gate: G,
    ) -> Result<Twin<G>, Fail> {
        let config = Config::new(site, 2, shards, workers, batch, keep).ok_or("a configuration")?;
        let site = Site::new(alloc, &config, gate)?;
        Ok(Twin { site })
    }

    /// Has the message written as `text` arrive.
    pub fn arrive(&mut self, rt: &impl Rig, text: &str) -> Result<Arrival, Fail> {
        let message = message(rt.alloc(), text, 2)?;
        Ok(self.site.arrive(rt, message)?)
    }

    /// Has two users and an item arrive: the answers.
    pub fn arrive_three(&mut self, rt: &impl Rig) -> Result<[Arrival; 3], Fail> {
        let (ann, bob) = (self.arrive(rt, ANN)?, self.arrive(rt, BOB)?);
        Ok([ann, bob, self.arrive(rt, CUP)?])
    }

    /// Has the comment arrive that follows the first `before` messages.
    pub fn arrive_comment(&mut self, rt: &impl Rig, before: u32) -> Result<Arrival, Fail> {
        let text = comment_behind(rt.alloc(), before)?;
        self.arrive(rt, &text)
    }
}
