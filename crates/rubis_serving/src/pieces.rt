//! What a run has answered so far, and what it does between pieces of its text and at its end.

ghost use Rattle.std.specs.Prelude.{◌≡◌, [], false, true, ℕ, IfOk, List};
ghost use Rattle.std.specs.Int.{from_bool};
ghost use Rattle.rubis_engine.specs.Accounts.Ending.{AtEnd};
ghost use Rattle.rubis_engine.specs.Progress.{ByEnd};
ghost use Rattle.rubis_engine.specs.Seam.{OfEach};
ghost use Rattle.rubis_reading.specs.Chunked.{ComesNearer, HasPending, held_text};
ghost use Rattle.rubis_reading.specs.Streams.{EndsNoRecord};
ghost use Rattle.rubis_serving.specs.Serving.{Closes, Goes, IsSettled, MovesOn, Stalls, Tears, at, coming, serving};

use crate::outlets::Outlet;
use rubis_engine::{Count, Reply, RunFault, Service};
use rubis_reading::{ChunkFault, Chunks};
use std::alloc::Global;
use std::io::Read;

/// How many bytes a reader is asked for at a time. Each chunk has a reader of CSV of its own, which takes as long to make as some twenty
/// records of an audit to read, so a chunk that is at hand is long.
pub const BLOCK: usize = 393_216;

/// The answers that wait to be written, and how many records were answered.
#[derive(Drop)]
pub struct Served {
    pub reply: Reply,
    pub answered: u64,
    /// What a run takes memory from.
    pub alloc: Global,
}

impl Served {
    /// Nothing was answered. It takes no memory yet.
    pub fn new(alloc: Global) -> Served
        ensures empty { result.reply.sink ≡ [] }
        ensures none { result.answered ≡ 0 }
    {
        Served {
            reply: Reply::new(alloc),
            answered: 0,
            alloc,
        }
    }
}

/// Has a service answer what it holds back, and puts all that waits.
///
/// # Errors
///
/// `Write` if some of it couldn't be put, and `Memory` if memory ran out.
pub fn settle<S: Service, O: Outlet>(
    service: &mut S,
    run: &mut Served,
    outlet: &mut O,
) -> Result<(), RunFault>
    requires { S.shares }
    ensures same { S.setup service.new ≡ S.setup service.old }
    ensures settled { let k = serving S.account S.leads O.puts O.tears in ByEnd result
        (λ _. Goes k [] (at service.old run.old outlet.old) (at service.new run.new outlet.new) × IsSettled k (at service.new run.new outlet.new))
        ⊥ ⊥ (Tears k [] (at service.old run.old outlet.old) outlet.new) }
{
    service.answer_held(&mut run.reply)?;
    outlet.put_all(&mut run.reply.sink)
}

/// Answers and puts all that came, and only then asks the reader for more: no record ends in what is held. Whether any came. If not, what is
/// held is the rest.
///
/// # Errors
///
/// `Read` if the reader failed: the records that came whole are answered then. `Write` if some of the text couldn't be put, and `Memory` if
/// memory ran out.
pub(crate) fn ask_for_more<S: Service, R: Read, O: Outlet>(
    chunks: &mut Chunks<R>,
    service: &mut S,
    run: &mut Served,
    outlet: &mut O,
) -> Result<bool, RunFault>
    requires none { EndsNoRecord (held_text chunks.old) }
    requires shares { S.shares }
    ensures same { S.setup service.new ≡ S.setup service.old }
    ensures last { IfOk result (λ more. (run.new.answered ≡ run.old.answered) × (more ≡ false → chunks.new.reader.is_ended ≡ true)) }
    ensures more { let k = serving S.account S.leads O.puts O.tears in
        let x = at service.old run.old outlet.old in
        let y = at service.new run.new outlet.new in OfEach R.remaining chunks.old.reader chunks.new.reader (λ left. ByEnd result
        (λ more. MovesOn k left chunks.old x chunks.new y × ComesNearer (from_bool more) left chunks.old chunks.new)
        ⊥ (Stalls k left chunks.old x chunks.new y)
        ((later : List (List (List ℕ))) → HasPending left chunks.old later → O.tears (coming k x AtEnd later) outlet.old outlet.new)) }
{
    settle(service, run, outlet)?;
    match chunks.fill(&run.reply.sink) {
        Ok(more) => Ok(more),
        Err(ChunkFault::Read) => Err(RunFault::Read),
        Err(ChunkFault::Memory) => Err(RunFault::Memory),
    }
}

/// Ends a run whose records are all answered: has the service give its last answers, and puts all that waits.
///
/// # Errors
///
/// `Write` if some of it couldn't be put, and `Memory` if memory ran out.
pub(crate) fn end<S: Service, O: Outlet>(
    service: &mut S,
    run: &mut Served,
    outlet: &mut O,
) -> Result<Count, RunFault>
    requires { S.shares }
    ensures same { S.setup service.new ≡ S.setup service.old }
    ensures ended { let k = serving S.account S.leads O.puts O.tears in
        let x = at service.old run.old outlet.old in ByEnd result
        (λ count. Closes k run.old.answered [] x service.new outlet.new count.records)
        ⊥ ⊥ (O.tears (coming k x AtEnd []) outlet.old outlet.new) }
{
    service.answer_end(&mut run.reply)?;
    outlet.put_all(&mut run.reply.sink)?;
    Ok(Count {
        records: run.answered,
    })
}
