//! Several sites as a service: a record in, its answers out.

ghost use Rattle.std.proofs.Common.{rules};
ghost use Rattle.std.specs.Prelude.{◌≡◌, ◌∷◌, [], IfOk, OnOk, length, refl};
ghost use Rattle.rubis_message.specs.WorldReadings.{world_input};
ghost use Rattle.rubis_model.specs.AuditRecords.{verdict_record};
ghost use Rattle.rubis_model.specs.System.{Event, happens};
ghost use Rattle.rubis_model.specs.Verdict.{verdict};
ghost use Rattle.rubis_model.specs.WorldRecords.{logs_of, told_at, world_step};
ghost use Rattle.rubis_schema.specs.declared.limits.TheConstants.{KEEP_MAX, SITES_MAX};
ghost use Rattle.rubis_script.specs.Replica.{IsCount};
ghost use Rattle.rubis_world.specs.Worlds.{StepsWorld, WorldState, opening_world};
ghost use Rattle.rubis_world.specs.Running.{IsRefused, IsTold};

use crate::answers::{write_event, write_no_event, write_refused};
use crate::config::WorldConfig;
use crate::faults::WorldFault;
use crate::world::World;
use rubis_audit::write_verdict;
use rubis_engine::{Course, InputRecord, OutOfMemory, Reply, RunFault, Service};
use rubis_message::{Happened, WorldInput, read_world_input};
use rubis_schema::Refusal;
use rubis_script::Fault;
use std::alloc::{AllocError, Global};
use std::io::Write;
use std::sync::Wait;
use std::thread::Threads;

// Says why an event is refused. Where a site has no memory for an answer there is none, nor where it is behind.
fn refuse(reply: &mut Reply, site: u8, fault: WorldFault) -> Result<(), OutOfMemory>
    ensures { OnOk result (IsRefused reply.old.number site fault reply.old.sink reply.new.sink) }
{
    match fault {
        WorldFault::BadEvent => Ok(write_refused(reply, site, Refusal::BadEvent)?),
        WorldFault::NoSuchPacket => Ok(write_refused(reply, site, Refusal::NoSuchPacket)?),
        WorldFault::Site(Fault::Refused(refusal)) => Ok(write_refused(reply, site, refusal)?),
        WorldFault::Site(_) | WorldFault::Memory => Err(OutOfMemory),
    }
}

// Says what came of an event at a site.
fn tell(
    world: &World,
    reply: &mut Reply,
    site: u8,
    came: Result<Happened, WorldFault>,
) -> Result<(), OutOfMemory>
    ensures { OnOk result ((old : WorldState) (e : Event) → StepsWorld old world.now (happens old.keep old.world e) came
        → IsTold old world.now (told_at reply.old.number site (happens old.keep old.world e)) reply.old.sink reply.new.sink) }
{
    match came {
        Ok(happened) => Ok(write_event(
            &mut reply.draft,
            &mut reply.sink,
            reply.number,
            site,
            world.packets(),
            happened,
        )?),
        Err(fault) => refuse(reply, site, fault),
    }
}

// Answers an audit.
fn answer_audit<R: Threads + Wait + Sync>(
    rt: &R,
    world: &mut World,
    reply: &mut Reply,
) -> Result<(), OutOfMemory>
    ensures { OnOk result (IsTold world.old world.new (
      world.old.world,
      verdict_record
          (verdict (logs_of world.old.world)) ∷ [],
    ) reply.old.sink reply.new.sink) }
{
    let Ok(verdict) = world.check(rt) else {
        return Err(OutOfMemory);
    };
    write_verdict(&mut reply.draft.fields, &mut reply.sink, verdict)?;
    Ok(())
}

/// Several sites with what they need to read records and to write their answers.
#[derive(Drop)]
pub struct WorldDesk<'a, T> {
    rt: &'a T,
    pub world: World,
    alloc: Global,
}

impl<'a, T> WorldDesk<'a, T> {
    /// Sites with nothing done, set up so.
    pub fn new(
        rt: &'a T,
        alloc: Global,
        config: &WorldConfig,
    ) -> Result<WorldDesk<'a, T>, AllocError>
        ensures start { IfOk result (λ desk. desk.world ≡ opening_world config.now.keep config.now.sites) }
        ensures limits { IfOk result (λ _. IsCount config.now.sites SITES_MAX × IsCount config.now.keep KEEP_MAX) }
    {
        Ok(WorldDesk {
            rt,
            world: World::new(alloc, config)?,
            alloc,
        })
    }
}

impl<T: Threads + Wait + Sync> WorldDesk<'_, T> {
    /// Answers a record.
    pub fn respond(&mut self, fields: &InputRecord, reply: &mut Reply) -> Result<(), OutOfMemory>
        ensures { OnOk result (IsTold self.old.world self.new.world
            (world_step self.old.world.keep self.old.world.world reply.old.number
            (world_input (length self.old.world.world.sites) fields.now)) reply.old.sink reply.new.sink) }
    {
        let input = read_world_input(self.alloc, fields, self.world.sites())?;
        let rt = self.rt;
        let world = &mut self.world;
        match input {
            WorldInput::Asked(site, Some(request)) => {
                let came = world.at(rt, site, request);
                tell(world, reply, site, came)
            }
            WorldInput::Asked(site, None) => Ok(write_refused(reply, site, Refusal::BadRecord)?),
            WorldInput::Delivered(site, which) => {
                let came = world.deliver(rt, site, which);
                tell(world, reply, site, came)
            }
            WorldInput::Audit => answer_audit(rt, world, reply),
            WorldInput::Neither => Ok(write_no_event(reply, Refusal::BadEvent)?),
        }
    }
}

impl<T: Threads + Wait + Sync> Service for WorldDesk<'_, T> {
    ghost use Rattle.std.specs.Prelude.{⊤};
    ghost use Rattle.std.specs.Thread.{IsSync};
    ghost use Rattle.rubis_world.specs.Running.{LeadsDesk, told_by_desk};

    ghost account = { told_by_desk };

    ghost leads = { LeadsDesk };

    ghost Setup = { ⊤ };

    ghost setup = { λ s. tt };

    ghost shares = { IsSync T.row };

    ghost reads_none = { λ s n. refl };

    ghost reads_next = { Prim.search rules };

    fn answer<W: Write>(
        &mut self,
        fields: &InputRecord,
        reply: &mut Reply,
        _writer: &mut W,
    ) -> Result<Course, RunFault> {
        self.respond(fields, reply)?;
        Ok(Course::GoesOn)
    }

    fn answer_held(&mut self, _reply: &mut Reply) -> Result<(), OutOfMemory> {
        Ok(())
    }

    fn answer_end(&mut self, _reply: &mut Reply) -> Result<(), OutOfMemory> {
        Ok(())
    }
}
