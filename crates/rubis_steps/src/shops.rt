//! A shop: whether an event may happen there, and what it leads to.

ghost use Rattle.std.specs.Fn.{FnReturnsAt};
ghost use Rattle.std.specs.Prelude.{◌≡◌, ◌==◌, ◌+◌, IfOk, OnOk, map};
ghost use Rattle.rubis_carrier.specs.Shops.{empty, request, shop_start, with_folder};
ghost use Rattle.rubis_carrier.specs.Events.{after_step, first_event, forgotten, opening_folder, opening_uncompared, replaced, is_alone, is_compared, is_offered, is_placed};
ghost use Rattle.rubis_carrier.specs.Events.{is_somewhere, may, may_open, may_serve, may_tell_published};
ghost use Rattle.rubis_carrier.specs.declared.values.ShopEvent.TheVariants.{Arrives, Passes, Starts, StreamLosesEnd, WritesAnew};
ghost use Rattle.rubis_steps.specs.Views.{changed, folder_at, folder_of, folders_of, shop_of, stream_at, folders_reached, in_folders, in_own_folder};
ghost use Rattle.rubis_steps.specs.Views.{in_streams, is_found, streams_reached};
ghost use Rattle.rubis_steps.specs.Answers.{HasListed, IsStreamListed};
ghost use Rattle.rubis_steps.specs.declared.folders.Folder.{Folder as CodeFolder};

use crate::faults::DeciderFault;
use crate::folders::{Folder, next};
use crate::lists::{first, remove_number};
use crate::packets::{are_own, are_reached, has_packets, highest, last_turn, own, sender, taken};
use rubis_carrier::{Answer, Carrier, Notice, ShopEvent as Event, ShopPacket, ShopRequest};
use std::alloc::Global;

// Whether the first number is the one behind the second.
fn is_next(number: u64, last: u64) -> bool
    ensures { result ≡ (number == last + 1) }
{
    0 < number && number - 1 == last
}

fn is_alone(folders: &[Folder], folder: u64, site: u64) -> bool
    ensures { result ≡ is_alone folder site 0 (map folder_of folders.now) }
{
    for (number, other) in folders.iter().enumerate() {
        if other.is_open && other.site == site && number as u64 != folder {
            return false;
        }
    }
    true
}

fn folders_reached(folders: &[Folder], site: u64, number: u64, turn: u64) -> bool
    ensures { result ≡ folders_reached site number turn folders.now }
{
    folders
        .iter()
        .all(|f| are_reached(&f.kept, site, number, turn))
}

fn streams_reached(streams: &[Vec<ShopPacket>], site: u64, number: u64, turn: u64) -> bool
    ensures { result ≡ streams_reached site number turn streams.now }
{
    streams
        .iter()
        .all(|kept| are_reached(kept, site, number, turn))
}

fn in_folders(folders: &[Folder], packet: ShopPacket) -> bool
    ensures { result ≡ in_folders packet folders.now }
{
    folders.iter().any(|f| f.kept.contains(&packet))
}

fn in_streams(streams: &[Vec<ShopPacket>], packet: ShopPacket) -> bool
    ensures { result ≡ in_streams packet streams.now }
{
    streams.iter().any(|stream| stream.contains(&packet))
}

fn is_found(folders: &[Folder], streams: &[Vec<ShopPacket>], packet: ShopPacket) -> bool
    ensures { result ≡ is_found packet folders.now streams.now }
{
    in_folders(folders, packet) || in_streams(streams, packet)
}

fn in_own_folder(folders: &[Folder], packet: ShopPacket) -> bool
    ensures { result ≡ in_own_folder packet folders.now }
{
    let sender = sender(packet);
    folders
        .iter()
        .any(|f| f.site == sender && f.kept.contains(&packet))
}

fn forget_all(folders: &mut Vec<Folder>, site: u64)
    ensures { folders_of folders.new ≡ map (forgotten site) (folders_of folders.old) }
{
    for at in 0..folders.len() {
        folders[at].forget(site);
    }
}

/// The folders and streams that were named by an event, and what else the model's shop has.
#[derive(Drop)]
pub struct Shop {
    alloc: Global,
    folders: Vec<Folder>,
    streams: Vec<Vec<ShopPacket>>,
    begun: u64,
    requests: Vec<ShopRequest>,
    yielding: Vec<u64>,
    uncompared: Vec<u64>,
    full: Vec<u64>,
    under_way: Vec<ShopPacket>,
    told: Vec<Notice>,
    turn: u64,
}

impl Shop {
    /// Nothing has happened.
    pub fn new(alloc: Global) -> Shop
        ensures { shop_of result ≡ shop_start }
    {
        Shop {
            alloc,
            folders: Vec::new(alloc),
            streams: Vec::new(alloc),
            begun: 0,
            requests: Vec::new(alloc),
            yielding: Vec::new(alloc),
            uncompared: Vec::new(alloc),
            full: Vec::new(alloc),
            under_way: Vec::new(alloc),
            told: Vec::new(alloc),
            turn: 0,
        }
    }

    // Lists all folders up to that one.
    fn list(&mut self, folder: u64) -> Result<(), DeciderFault>
        ensures { OnOk result (HasListed folder self.old self.new) }
    {
        while self.folders.len() as u64 <= folder {
            let next = Folder::new(self.alloc, self.folders.len() as u64);
            self.folders.push(next)?;
        }
        Ok(())
    }

    // Lists all streams up to that one.
    fn list_stream(&mut self, site: u64) -> Result<(), DeciderFault>
        ensures { OnOk result (IsStreamListed site self.old self.new) }
    {
        while self.streams.len() as u64 <= site {
            self.streams.push(Vec::new(self.alloc))?;
        }
        Ok(())
    }

    fn site(&self, folder: u64) -> u64
        ensures { result ≡ (folder_at self.now folder).site }
    {
        match self.folders.get(folder as usize) {
            Some(it) => it.site,
            None => folder,
        }
    }

    // Whether that holds of the folder.
    fn look<F: Fn(&Folder) -> bool>(&self, folder: u64, test: F) -> bool
        requires { F.IsAlwaysCallable test }
        ensures { (f : CodeFolder) × (folder_of f ≡ folder_at self.now folder) × FnReturnsAt F.Fn test f result }
    {
        match self.folders.get(folder as usize) {
            Some(it) => test(it),
            None => test(&Folder::new(self.alloc, folder)),
        }
    }

    fn kept(&self, folder: u64) -> &[ShopPacket]
        ensures { result.now ≡ (folder_at self.now folder).kept }
    {
        match self.folders.get(folder as usize) {
            Some(it) => it.kept.as_slice(),
            None => &[],
        }
    }

    fn stream(&self, site: u64) -> &[ShopPacket]
        ensures { result.now ≡ stream_at self.now site }
    {
        match self.streams.get(site as usize) {
            Some(stream) => stream.as_slice(),
            None => &[],
        }
    }

    // What an event leads to.

    // Only that folder becomes another.
    fn change(&mut self, folder: u64, event: Event, records: u64) -> Result<(), DeciderFault>
        ensures { OnOk result (shop_of self.new ≡ with_folder folder (changed event records (folder_at self.old folder)) (shop_of self.old)) }
    {
        self.list(folder)?;
        self.folders[folder as usize].change(event, records)
    }

    fn starts(&mut self, folder: u64) -> Result<(), DeciderFault>
        ensures { OnOk result (shop_of self.new ≡ after_step (shop_of self.old) (Starts folder)) }
    {
        let life = next(self.begun)?;
        self.list(folder)?;
        self.folders[folder as usize].start(life);
        self.begun = life;
        Ok(())
    }

    fn opens(&mut self, folder: u64) -> Result<(), DeciderFault>
        ensures { OnOk result (shop_of self.new ≡ opening_folder folder (shop_of self.old)) }
    {
        let site = self.site(folder);
        forget_all(&mut self.folders, site);
        self.under_way.retain(|x| sender(*x) != site);
        self.list(folder)?;
        self.folders[folder as usize].open();
        Ok(())
    }

    fn opens_uncompared(&mut self, folder: u64) -> Result<(), DeciderFault>
        ensures { OnOk result (shop_of self.new ≡ opening_uncompared folder (shop_of self.old)) }
    {
        let site = self.site(folder);
        self.opens(folder)?;
        self.uncompared.insert(0, site)?;
        Ok(())
    }

    fn passes(&mut self, folder: u64, to: u64) -> Result<(), DeciderFault>
        ensures { OnOk result (shop_of self.new ≡ after_step (shop_of self.old) (Passes folder to)) }
    {
        self.list(folder)?;
        let it = &self.folders[folder as usize];
        let turn = next(taken(&it.kept, it.site))?;
        self.change(folder, Event::Passes(folder, to), 0)?;
        self.turn = self.turn.max(turn);
        Ok(())
    }

    fn appends(&mut self, packet: ShopPacket) -> Result<(), DeciderFault>
        ensures { OnOk result (shop_of self.new ≡ after_step (shop_of self.old) (Arrives packet)) }
    {
        let site = sender(packet);
        self.list_stream(site)?;
        self.streams[site as usize].push(packet)?;
        Ok(())
    }

    // A folder of that site with what this one has, of which nothing is known.
    fn copy(&self, folder: u64, site: u64) -> Result<Folder, DeciderFault>
        ensures { IfOk result (λ f. folder_of f ≡ replaced (empty site) (folder_at self.now folder).kept) }
    {
        let mut copy = Folder::new(self.alloc, site);
        copy.kept.extend_from_slice(self.kept(folder))?;
        Ok(copy)
    }

    // Another folder, of that site, has what this one has.
    fn replaces(&mut self, folder: u64, other: u64, site: u64) -> Result<(), DeciderFault>
        ensures { OnOk result (shop_of self.new ≡ with_folder other (replaced (empty site) (folder_at self.old folder).kept) (shop_of self.old)) }
    {
        let copy = self.copy(folder, site)?;
        self.list(other)?;
        self.folders[other as usize] = copy;
        Ok(())
    }

    fn stream_loses_end(&mut self, site: u64, count: u64) -> Result<(), DeciderFault>
        ensures { OnOk result (shop_of self.new ≡ after_step (shop_of self.old) (StreamLosesEnd site count)) }
    {
        self.list_stream(site)?;
        self.streams[site as usize].truncate(count as usize);
        Ok(())
    }

    fn writes_anew(&mut self, folder: u64) -> Result<(), DeciderFault>
        ensures { OnOk result (shop_of self.new ≡ after_step (shop_of self.old) (WritesAnew folder)) }
    {
        let site = self.site(folder);
        let stream = own(self.alloc, self.kept(folder), site)?;
        self.list_stream(site)?;
        self.streams[site as usize] = stream;
        Ok(())
    }

    // The first ask that was given there, as an answer is taken to be of that.
    fn first_given(&self, folder: u64) -> u64
        ensures { result ≡ first_event (folder_at self.now folder).given }
    {
        match self.folders.get(folder as usize) {
            Some(it) => first(&it.given),
            None => 0,
        }
    }

    /// The event happens.
    pub fn happens(&mut self, event: Event) -> Result<(), DeciderFault>
        ensures { OnOk result (shop_of self.new ≡ after_step (shop_of self.old) event) }
    {
        match event {
            Event::Starts(k) => self.starts(k)?,
            Event::Opens(k) => self.opens(k)?,
            Event::TakesOver(k) | Event::OpensAlone(k) => self.opens_uncompared(k)?,
            Event::GoesOn(k) => {
                let site = self.site(k);
                self.change(k, event, 0)?;
                self.uncompared.insert(0, site)?;
            }
            Event::Fills(k) => self.full.insert(0, k)?,
            Event::IsRaised(k) => remove_number(&mut self.full, k),
            Event::IsAsked(_, life, records) => self.requests.push(ShopRequest { life, records })?,
            Event::Gives(k, ask) => {
                let records = self.request(ask).records;
                self.change(k, event, records)?;
            }
            Event::Refuses(k, _) => {
                let ask = self.first_given(k);
                self.change(k, event, 0)?;
                self.told.insert(0, Notice::No { ask })?;
            }
            Event::TellsOk(k, ask, number) | Event::TellsPublished(k, ask, number) => {
                let site = self.site(k);
                self.told.insert(0, Notice::Ok { ask, site, number })?;
            }
            Event::TellsNothing(k, ask) => {
                self.change(k, event, 0)?;
                self.told.insert(0, Notice::No { ask })?;
            }
            Event::TellsUnknown(_, ask) => self.told.insert(0, Notice::Unknown { ask })?,
            Event::Yields(site) => self.yielding.insert(0, site)?,
            Event::TakesBack(site) => remove_number(&mut self.yielding, site),
            Event::Passes(k, to) => self.passes(k, to)?,
            Event::Appends(_, packet) | Event::Arrives(packet) => self.appends(packet)?,
            Event::Sends(_, packet) => self.under_way.insert(0, packet)?,
            Event::IsCopied(k, other) => self.replaces(k, other, self.site(k))?,
            Event::Rebuilds(k, made) => self.replaces(made, k, self.site(k))?,
            Event::StreamLosesEnd(site, count) => self.stream_loses_end(site, count)?,
            Event::ServerLosesAll => self.streams.clear(),
            Event::WritesAnew(k) => self.writes_anew(k)?,
            Event::KeeperStarts(_) => (),
            Event::Closes(k) | Event::IsKilled(k) | Event::MachineStarts(k) | Event::IsLost(k) => {
                self.change(k, event, 0)?
            }
            Event::Serves(k, _) | Event::Accepts(k, _) | Event::LosesEnd(k, _) => {
                self.change(k, event, 0)?
            }
            Event::Reads(k, _) | Event::Finds(k, _) => self.change(k, event, 0)?,
        }
        Ok(())
    }

    // Whether an event may happen.

    fn request(&self, ask: u64) -> ShopRequest
        ensures { result ≡ request (shop_of self.now) ask }
    {
        let at = ask.wrapping_sub(1) as usize;
        self.requests.get(at).copied().unwrap_or_default()
    }

    fn is_compared(&self, it: &Folder) -> bool
        ensures { result ≡ is_compared (shop_of self.now) (folder_of it.now) }
    {
        let number = highest(&it.kept, it.site);
        let turn = last_turn(&it.kept, it.site);
        folders_reached(&self.folders, it.site, number, turn)
            && streams_reached(&self.streams, it.site, number, turn)
    }

    fn is_somewhere(&self, packet: ShopPacket) -> bool
        ensures { result ≡ is_somewhere (shop_of self.now) packet }
    {
        is_found(&self.folders, &self.streams, packet) || self.under_way.contains(&packet)
    }

    fn is_offered(&self, carrier: Carrier, packet: ShopPacket) -> bool
        ensures { result ≡ is_offered carrier (shop_of self.now) packet }
    {
        match carrier {
            Carrier::Files => in_own_folder(&self.folders, packet),
            Carrier::Server => self.stream(sender(packet)).contains(&packet),
        }
    }

    fn is_placed(&self, packet: ShopPacket) -> bool
        ensures { result ≡ is_placed (shop_of self.now) packet }
    {
        match packet {
            ShopPacket::Message(site, number, _) => !self.uncompared.contains(&site)
                || is_next(number, highest(self.stream(site), site)),
            ShopPacket::Pass(_, _, _, _) => true,
        }
    }

    fn may_open(&self, folder: u64, it: &Folder) -> bool
        ensures { result ≡ may_open (shop_of self.now) folder (folder_of it.now) }
    {
        0 < it.life
            && (it.remembered || self.is_compared(it))
            && is_alone(&self.folders, folder, it.site)
    }

    fn may_serve(&self, it: &Folder, ask: u64) -> bool
        ensures { result ≡ may_serve (shop_of self.now) (folder_of it.now) ask }
    {
        let request = self.request(ask);
        0 < it.life
            && ask <= self.requests.len() as u64
            && request.life == it.life
            && request.records == 1
            && !it.served.contains(&ask)
    }

    fn may_tell_published(&self, it: &Folder, ask: u64, number: u64) -> bool
        ensures { result ≡ may_tell_published (shop_of self.now) (folder_of it.now) ask number }
    {
        let site = it.site;
        it.answered.contains(&Answer { ask, number })
            && self
                .stream(site)
                .contains(&ShopPacket::Message(site, number, ask))
    }

    /// Whether the event may happen.
    pub fn may(&self, carrier: Carrier, event: Event) -> bool
        ensures { result ≡ may carrier (shop_of self.now) event }
    {
        let server = carrier == Carrier::Server;
        match event {
            Event::Starts(k) | Event::IsRaised(k) => self.look(k, |it| it.life == 0),
            Event::Opens(k) => self.look(k, |it| self.may_open(k, it)),
            Event::TakesOver(k) => {
                self.look(k, |it| 0 < it.life && self.yielding.contains(&it.site))
            }
            Event::OpensAlone(k) | Event::GoesOn(k) => self.look(k, |it| 0 < it.life),
            Event::IsAsked(ask, life, _) => {
                is_next(ask, self.requests.len() as u64) && life <= self.begun
            }
            Event::Serves(k, ask) => self.look(k, |it| self.may_serve(it, ask)),
            Event::Gives(k, ask) => self.look(k, |it| it.is_open && it.waiting.contains(&ask)),
            Event::Accepts(k, ask) => self.look(k, |it| {
                it.is_open && it.lines.first() == Some(&ask) && !self.full.contains(&k)
            }),
            Event::Refuses(k, ask) => self.look(k, |it| it.lines.first() == Some(&ask)),
            Event::TellsOk(k, ask, number) => {
                self.look(k, |it| it.answered.contains(&Answer { ask, number }))
                    && !self.yielding.contains(&self.site(k))
            }
            Event::TellsPublished(k, ask, number) => {
                server && self.look(k, |it| self.may_tell_published(it, ask, number))
            }
            Event::TellsNothing(k, ask) => self.look(k, |it| it.waiting.contains(&ask)),
            Event::Passes(k, to) => self.look(k, |it| it.is_open && it.holds() && to != it.site),
            Event::Appends(k, packet) => {
                self.look(k, |it| server && 0 < it.life && it.kept.contains(&packet))
                    && self.is_placed(packet)
            }
            Event::Sends(k, packet) => {
                self.look(k, |it| server && 0 < it.life && it.kept.contains(&packet))
            }
            Event::Arrives(packet) => {
                server && self.under_way.contains(&packet) && self.is_placed(packet)
            }
            Event::Reads(k, packet) => {
                self.look(k, |it| 0 < it.life && sender(packet) != it.site)
                    && self.is_offered(carrier, packet)
                    && !(matches!(packet, ShopPacket::Message(_, _, _)) && self.full.contains(&k))
            }
            Event::Finds(k, packet) => {
                self.look(k, |it| it.life == 0) && self.is_somewhere(packet)
            }
            Event::Rebuilds(k, made) => {
                self.look(
                    k,
                    |it| it.life == 0 && has_packets(self.kept(made), &it.kept),
                )
            }
            Event::WritesAnew(k) => self.look(k, |it| {
                server
                    && 0 < it.life
                    && !self.uncompared.contains(&it.site)
                    && are_own(self.stream(it.site), &it.kept, it.site)
            }),
            _ => true,
        }
    }
}
