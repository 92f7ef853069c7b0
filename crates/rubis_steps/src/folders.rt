//! A folder of a site, and what becomes of it alone.

ghost use Rattle.std.specs.Prelude.{◌≡◌, ◌+◌, IfOk, OnOk};
ghost use Rattle.rubis_carrier.specs.Shops.{empty};
ghost use Rattle.rubis_carrier.specs.Events.{accepting, first_answered, forgotten, giving, with_packet_kept, next_pass, opened_site, started, stopped, unknown, holds_token};
ghost use Rattle.rubis_steps.specs.Views.{changed, folder_of};

use crate::faults::DeciderFault;
use crate::lists::{first, push_times, remove_first, remove_number};
use crate::packets::{highest, passed, taken};
use rubis_carrier::{Answer, ShopEvent as Event, ShopPacket};
use std::alloc::Global;

/// A folder of a site, and what is in the memory of those that run it.
#[derive(Drop)]
pub struct Folder {
    pub site: u64,
    pub kept: Vec<ShopPacket>,
    pub life: u64,
    pub is_open: bool,
    pub remembered: bool,
    pub served: Vec<u64>,
    pub waiting: Vec<u64>,
    pub given: Vec<u64>,
    pub lines: Vec<u64>,
    pub answered: Vec<Answer>,
}

/// The next number, if there is one.
pub fn next(number: u64) -> Result<u64, DeciderFault>
    ensures { IfOk result (λ n. n ≡ number + 1) }
{
    number.checked_add(1).ok_or(DeciderFault::TooLarge)
}

impl Folder {
    /// One that has nothing.
    pub fn new(alloc: Global, site: u64) -> Folder
        ensures { folder_of result ≡ empty site }
    {
        Folder {
            site,
            kept: Vec::new(alloc),
            life: 0,
            is_open: false,
            remembered: false,
            served: Vec::new(alloc),
            waiting: Vec::new(alloc),
            given: Vec::new(alloc),
            lines: Vec::new(alloc),
            answered: Vec::new(alloc),
        }
    }

    /// Whether its site has the token.
    pub fn holds(&self) -> bool
        ensures { result ≡ holds_token (folder_of self.now) }
    {
        let turn = taken(&self.kept, self.site);
        passed(&self.kept, self.site) <= turn && (self.site == 0 || 0 < turn)
    }

    // Nothing runs it any more.
    fn stop(&mut self)
        ensures { folder_of self.new ≡ stopped (folder_of self.old) }
    {
        self.life = 0;
        self.is_open = false;
        self.served.clear();
        self.waiting.clear();
        self.given.clear();
        self.lines.clear();
        self.answered.clear();
    }

    /// Nor does its machine know anything of it.
    pub fn lose_memory(&mut self)
        ensures { folder_of self.new ≡ unknown (folder_of self.old) }
    {
        self.stop();
        self.remembered = false;
    }

    /// A supervisor begins to run it, in that life.
    pub fn start(&mut self, life: u64)
        ensures { folder_of self.new ≡ started (folder_of self.old) life }
    {
        self.stop();
        self.life = life;
    }

    /// Its site may take asks.
    pub fn open(&mut self)
        ensures { folder_of self.new ≡ opened_site (folder_of self.old) }
    {
        self.is_open = true;
        self.remembered = true;
    }

    /// Another folder of that site takes asks.
    pub fn forget(&mut self, site: u64)
        ensures { folder_of self.new ≡ forgotten site (folder_of self.old) }
    {
        if self.site == site {
            self.remembered = false;
        }
    }

    // An ask that waited is given to the site, as this many records.
    fn give(&mut self, ask: u64, records: u64) -> Result<(), DeciderFault>
        ensures { OnOk result (folder_of self.new ≡ giving (folder_of self.old) ask records) }
    {
        remove_number(&mut self.waiting, ask);
        self.given.push(ask)?;
        push_times(&mut self.lines, records, ask)
    }

    // The first record has its answer.
    fn answer(&mut self)
        ensures { folder_of self.new ≡ first_answered (folder_of self.old) }
    {
        remove_first(&mut self.given);
        remove_first(&mut self.lines);
    }

    // Its site accepts a record that came with that ask.
    fn accept(&mut self, made_of: u64) -> Result<(), DeciderFault>
        ensures { OnOk result (folder_of self.new ≡ accepting (folder_of self.old) made_of) }
    {
        let site = self.site;
        let number = next(highest(&self.kept, site))?;
        let ask = first(&self.given);
        self.answer();
        self.answered.insert(0, Answer { ask, number })?;
        self.kept.push(ShopPacket::Message(site, number, made_of))?;
        Ok(())
    }

    // Its site passes the token on.
    fn pass(&mut self, to: u64) -> Result<(), DeciderFault>
        ensures { OnOk result (folder_of self.new ≡ with_packet_kept (folder_of self.old) (next_pass (folder_of self.old) to)) }
    {
        let site = self.site;
        let turn = next(taken(&self.kept, site))?;
        let after = highest(&self.kept, site);
        self.kept.push(ShopPacket::Pass(site, turn, to, after))?;
        Ok(())
    }

    /// What becomes of it alone; `records` is how many the ask has, if one is given.
    pub fn change(&mut self, event: Event, records: u64) -> Result<(), DeciderFault>
        ensures { OnOk result (folder_of self.new ≡ changed event records (folder_of self.old)) }
    {
        match event {
            Event::Closes(_) => self.is_open = false,
            Event::GoesOn(_) => self.is_open = true,
            Event::IsKilled(_) => self.stop(),
            Event::MachineStarts(_) => self.lose_memory(),
            Event::Serves(_, ask) => {
                self.served.insert(0, ask)?;
                self.waiting.insert(0, ask)?;
            }
            Event::Gives(_, ask) => self.give(ask, records)?,
            Event::Accepts(_, ask) => self.accept(ask)?,
            Event::Refuses(_, _) => self.answer(),
            Event::TellsNothing(_, ask) => remove_number(&mut self.waiting, ask),
            Event::Passes(_, to) => self.pass(to)?,
            Event::Reads(_, packet) => self.kept.push(packet)?,
            Event::LosesEnd(_, count) => {
                self.lose_memory();
                self.kept.truncate(count as usize);
            }
            Event::IsLost(_) => {
                self.lose_memory();
                self.kept.clear();
            }
            Event::Finds(_, packet) => {
                self.lose_memory();
                self.kept.push(packet)?;
            }
            _ => (),
        }
        Ok(())
    }
}
