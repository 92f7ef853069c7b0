//! A batch of an intake's log, applied to tables by helpers that stay for a run.

ghost use Rattle.std.specs.Prelude.{◌≡◌, ◌<◌, ◌≤◌, All, length, IfOk, OnErr};
ghost use Rattle.std.specs.Arc.{arc_value};
ghost use Rattle.rubis_message.specs.Message.{IsMessage};
ghost use Rattle.rubis_replica.specs.Folding.{CanApply, IsApplied, IsBatch, IsShared, IsSpan, messages_of};

use crate::folding::{SharedBatch, Span};
use crate::hands::Hands;
use rubis_pieces::homes_of;
use rubis_release::Intake;
use rubis_workers::{Gate, LogBatch, Tables, Workers, apply_alone, put_back, stop_all};
use std::alloc::{AllocError, Global};
use std::sync::{Arc, Wait};
use std::thread;

// How many messages a batch has at least that is given to helpers.
const SHARED_MIN: usize = 64;

// Shares messages of an intake's log among `shards` shards: the intake goes into the batch, unless memory runs out.
fn share(
    alloc: Global,
    intake: &mut Intake,
    span: &Span,
    shards: usize,
) -> Result<Arc<SharedBatch, Global>, AllocError>
    requires span { IsSpan intake.old.state.log span.now }
    requires shards { (0 < shards) × (shards ≤ 255) }
    ensures ok { IfOk result (λ batch. IsShared intake.old span.now shards (arc_value batch)) }
    ensures err { OnErr result (intake.new ≡ intake.old) }
{
    let homes = homes_of(alloc, &intake.log()[span.from..span.upto], shards)?;
    let batch = SharedBatch {
        intake: intake.take(),
        homes,
        span: *span,
    };
    match Arc::new(alloc, batch) {
        Ok(batch) => Ok(batch),
        Err(failed) => {
            *intake = failed.value.into_intake();
            Err(AllocError)
        }
    }
}

// Takes the intake out of a batch that was folded, once no helper has it any more.
fn unshare<R: Wait>(rt: &R, mut batch: Arc<SharedBatch, Global>) -> Intake
    ensures { result ≡ (arc_value batch).intake }
{
    for _ in rt.forever() {
        match Arc::try_unwrap(batch) {
            Ok(shared) => return shared.into_intake(),
            Err(back) => batch = back,
        }
        thread::yield_now();
    }
    unreachable!()
}

// Applies a batch to tables, by helpers and the caller's thread.
fn apply_shared<G: Gate + Drop, R: Wait>(
    rt: &R,
    hands: &mut Hands<'_, G>,
    gate: &Arc<G, Global>,
    batch: &Arc<SharedBatch, Global>,
    tables: &mut Tables,
    stops: &mut Vec<usize>,
) -> Result<(), AllocError>
    requires can { CanApply (arc_value batch.now).intake.state.log (arc_value batch.now).span tables.old stops.old }
    requires batch { IsBatch (arc_value batch.now) (length tables.old) × All IsMessage (messages_of (arc_value batch.now)) }
    ensures applied { IsApplied (arc_value batch.now).intake.state.log (arc_value batch.now).span tables.old stops.old tables.new stops.new result }
    ensures crew { hands.new.lead.crew ≡ hands.old.lead.crew }
{
    let folded = hands.fold(rt, batch, gate, tables.take());
    let shared: &SharedBatch = batch;
    let Span { from, upto } = shared.span;
    let messages = LogBatch {
        log: shared.intake.log(),
        from,
        upto,
    };
    put_back(tables, &messages, folded, stops)
}

/// Applies messages of an intake's log to tables, as far as memory goes, by helpers and the caller's thread, or by the latter alone where
/// they are few. On an error `stops` says how far each shard stands.
pub(crate) fn apply_by_hands<G: Gate + Drop, R: Wait>(
    rt: &R,
    hands: &mut Hands<'_, G>,
    workers: &Workers<G>,
    tables: &mut Tables,
    intake: &mut Intake,
    span: &Span,
    stops: &mut Vec<usize>,
) -> Result<(), AllocError>
    requires { CanApply intake.old.state.log span.now tables.old stops.old }
    ensures applied { IsApplied intake.old.state.log span.now tables.old stops.old tables.new stops.new result }
    ensures intake { intake.new ≡ intake.old }
    ensures crew { hands.new.lead.crew ≡ hands.old.lead.crew }
{
    let Span { from, upto } = *span;
    if upto - from < SHARED_MIN {
        let batch = LogBatch {
            log: intake.log(),
            from,
            upto,
        };
        return apply_alone(tables, &batch, stops, &*workers.gate);
    }
    let Ok(batch) = share(workers.alloc, intake, span, tables.len()) else {
        stop_all(stops, tables.len(), from);
        return Err(AllocError);
    };
    let ended = apply_shared(rt, hands, &workers.gate, &batch, tables, stops);
    *intake = unshare(rt, batch);
    ended
}
