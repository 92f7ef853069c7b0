//! How a site is set up, within its limits.

ghost use Rattle.std.specs.Prelude.{◌≡◌, ◌<◌, ◌↔◌, IsTrue};
ghost use Rattle.std.specs.Option.{SomeIff};
ghost use Rattle.rubis_replica.specs.Counts.{IsCount};
ghost use Rattle.rubis_replica.specs.State.{IsSetup, Setup};

use rubis_schema::{BATCH_MAX, Hashes, KEEP_MAX, SHARDS_MAX, SITES_MAX, WORKERS_MAX};
use std::marker::Model;

/// How a site is set up: which one it is, of how many; how many shards its workers share, how many workers may apply
/// messages to them, and how many messages make a batch; how many messages it keeps; and what its maps hash by, which no answer
/// depends on and no contract sees.
#[derive(Drop)]
pub struct Config {
    site: u8,
    sites: u8,
    shards: u8,
    workers: u8,
    batch: u32,
    keep: u32,
    hashes: Hashes,
}

impl Model for Config {
    ghost use Rattle.rubis_replica.specs.State.{Setup, IsSetup};

    ghost Value = { Setup };

    ghost view = { λ c. record { site = c.site; sites = c.sites; shards = c.shards; workers = c.workers; batch = c.batch; keep = c.keep } };

    ghost invariant = { λ c. IsSetup (record { site = c.site; sites = c.sites; shards = c.shards; workers = c.workers; batch = c.batch; keep = c.keep }) };
}

// Whether a number is from 1 to `most`.
fn is_count(number: u32, most: u32) -> bool
    ensures { IsTrue result ↔ IsCount number most }
{
    number >= 1 && number <= most
}

impl Config {
    /// The configuration with these numbers and hashes that are the same in each run, if each number is within its limits and
    /// the site is below `sites`: 1 to 16 sites,
    /// 1 to 64 shards, 1 to 16 workers, batches of 1 to 65,536, and 1 to 1,000,000 messages kept.
    pub fn new(
        site: u8,
        sites: u8,
        shards: u8,
        workers: u8,
        batch: u32,
        keep: u32,
    ) -> Option<Config>
        ensures { let setup : Setup = record { site = site; sites = sites; shards = shards; workers = workers; batch = batch; keep = keep } in
            SomeIff result (IsSetup setup) setup }
    {
        let fits = is_count(u32::from(sites), u32::from(SITES_MAX))
            && is_count(u32::from(shards), u32::from(SHARDS_MAX))
            && is_count(u32::from(workers), u32::from(WORKERS_MAX))
            && is_count(batch, BATCH_MAX)
            && is_count(keep, KEEP_MAX);
        if !fits || site >= sites {
            return None;
        }
        Some(Config {
            site,
            sites,
            shards,
            workers,
            batch,
            keep,
            hashes: Hashes::fixed(),
        })
    }

    /// The same configuration, with these hashes.
    pub fn with_hashes(self, hashes: Hashes) -> Config
        ensures { result ≡ self }
    {
        Config { hashes, ..self }
    }

    /// What the maps of the site hash by.
    pub(crate) fn hashes(&self) -> Hashes {
        self.hashes
    }

    /// Which site it is, from 0.
    pub fn site(&self) -> u8
        ensures value { result ≡ self.now.site }
        ensures below { result < self.now.sites }
    {
        self.site
    }

    /// How many sites there are.
    pub fn sites(&self) -> u8
        ensures value { result ≡ self.now.sites }
        ensures limits { IsCount result SITES_MAX }
    {
        self.sites
    }

    /// How many shards several workers share.
    pub fn shards(&self) -> u8
        ensures value { result ≡ self.now.shards }
        ensures limits { IsCount result SHARDS_MAX }
    {
        self.shards
    }

    /// How many shards the tables have: one worker needs one.
    pub(crate) fn shards_needed(&self) -> u8
        ensures { IsCount result SHARDS_MAX }
    {
        if self.workers == 1 { 1 } else { self.shards }
    }

    /// How many workers may apply shadows.
    pub fn workers(&self) -> u8
        ensures value { result ≡ self.now.workers }
        ensures limits { IsCount result WORKERS_MAX }
    {
        self.workers
    }

    /// How many pending shadows make a batch.
    pub fn batch(&self) -> u32
        ensures value { result ≡ self.now.batch }
        ensures limits { IsCount result BATCH_MAX }
    {
        self.batch
    }

    /// How many messages the site keeps.
    pub fn keep(&self) -> u32
        ensures value { result ≡ self.now.keep }
        ensures limits { IsCount result KEEP_MAX }
    {
        self.keep
    }
}
