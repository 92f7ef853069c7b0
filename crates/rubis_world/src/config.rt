//! How a world is set up, within its limits.

ghost use Rattle.std.specs.Prelude.{◌≡◌, ◌<◌};
ghost use Rattle.std.specs.Option.{SomeIff};
ghost use Rattle.rubis_schema.specs.declared.limits.TheConstants.{KEEP_MAX, SITES_MAX};
ghost use Rattle.rubis_script.specs.Replica.{IsCount};
ghost use Rattle.rubis_world.specs.Worlds.{IsWorldSetup, WorldSetup, setup_at};

use rubis_schema::Hashes;
use rubis_script::Config;
use std::marker::Model;

/// How the sites of a world are set up: how many they are; and of each, how many shards its tables have, how many workers
/// apply shadows to them, how many shadows make a batch, and how many messages it keeps; and what the maps of all hash by, which
/// no answer depends on and no contract sees.
#[derive(Drop)]
pub struct WorldConfig {
    // How the first site is set up: the others are set up as it is.
    first: Config,
    hashes: Hashes,
}

impl Model for WorldConfig {
    ghost use Rattle.rubis_world.specs.Worlds.{WorldSetup, common_setup};

    ghost Value = { WorldSetup };

    ghost view = { λ c. common_setup c.first };
}

impl WorldConfig {
    /// The configuration with these numbers and hashes that are the same in each run, if each number is within its limits: 1 to
    /// 16 sites, 1 to 64 shards, 1 to 16 workers, batches of 1 to 65,536, and 1 to 1,000,000 messages kept at each site.
    pub fn new(sites: u8, shards: u8, workers: u8, batch: u32, keep: u32) -> Option<WorldConfig>
        ensures { let setup : WorldSetup = record { sites = sites; shards = shards; workers = workers; batch = batch; keep = keep } in SomeIff result
            (IsWorldSetup setup) setup }
    {
        Some(WorldConfig {
            first: Config::new(0, sites, shards, workers, batch, keep)?,
            hashes: Hashes::fixed(),
        })
    }

    /// The same configuration, with these hashes.
    pub fn with_hashes(self, hashes: Hashes) -> WorldConfig
        ensures { result ≡ self }
    {
        WorldConfig { hashes, ..self }
    }

    /// What all maps hash by.
    pub(crate) fn hashes(&self) -> Hashes {
        self.hashes
    }

    /// How many sites there are.
    pub fn sites(&self) -> u8
        ensures value { result ≡ self.now.sites }
        ensures limits { IsCount result SITES_MAX }
    {
        self.first.sites()
    }

    /// How many messages each site keeps.
    pub fn keep(&self) -> u32
        ensures value { result ≡ self.now.keep }
        ensures limits { IsCount result KEEP_MAX }
    {
        self.first.keep()
    }

    /// The configuration of one of the sites.
    pub fn site(&self, site: u8) -> Config
        requires { site < self.now.sites }
        ensures { result ≡ setup_at self.now site }
    {
        let first = &self.first;
        Config::new(
            site,
            first.sites(),
            first.shards(),
            first.workers(),
            first.batch(),
            first.keep(),
        )
        .unwrap()
        .with_hashes(self.hashes)
    }
}
