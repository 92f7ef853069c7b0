//! The desk answers records that were read ahead.

ghost use Rattle.std.specs.Prelude.{◌≡◌, ◌<◌, ◌+◌, ◌^◌, All, length};
ghost use Rattle.rubis_message.specs.Inputs.{FitsIn};
ghost use Rattle.rubis_reading.specs.Readings.{FitsWindow, flat, of_stretch};
ghost use Rattle.rubis_engine.specs.Progress.{ByEnd};
ghost use Rattle.rubis_script.specs.Desks.{KeepsSetup};
ghost use Rattle.rubis_serving.specs.Serving.{at};
ghost use Rattle.rubis_script.specs.Runs.{BreaksAhead, GoesAhead, IsSound};

use crate::desk::Desk;
use rubis_engine::RunFault;
use rubis_reading::{Ahead, Stretch};
use rubis_serving::{Outlet, Served};
use std::io::Write;
use std::sync::Wait;
use std::thread::Threads;

// Answers or holds the records of a stretch: before messages that came together are held, no more than the plan says, those that are held
// are taken in.
fn answer_stretch<T: Threads + Wait + Sync, W: Write>(
    desk: &mut Desk<'_, T>,
    run: &mut Served,
    stretch: Stretch,
    writer: &mut W,
) -> Result<(), RunFault>
    requires fits { All (λ p. FitsIn desk.old.site.place.sites p) (of_stretch stretch) }
    requires window { FitsWindow desk.old.plan.window stretch }
    requires room { run.old.answered + length (of_stretch stretch) + 1 < 2 ^ 64 }
    ensures same { KeepsSetup desk.old desk.new }
    ensures answered { ByEnd result
        (λ _. GoesAhead W.contents (of_stretch stretch) (at desk.old run.old writer.old) (at desk.new run.new writer.new)
        × (run.new.answered ≡ run.old.answered + length (of_stretch stretch))) ⊥ ⊥
        (BreaksAhead W.contents (of_stretch stretch) (at desk.old run.old writer.old) writer.new) }
{
    let first = run.answered + 1;
    run.reply.number = first;
    match stretch {
        Stretch::Messages(list) => {
            let many = list.len() as u64;
            desk.flush(&mut run.reply)?;
            desk.window = list;
            desk.first = first;
            run.answered += many;
            Ok(())
        }
        Stretch::One(read) => {
            desk.take(&mut run.reply, read, writer)?;
            run.answered = first;
            Ok(())
        }
    }
}

/// Answers or holds the records that were read ahead, and writes out what comes to much.
///
/// # Errors
///
/// `Write` where the writer failed, and `Memory` if memory ran out: a prefix of the text was written then.
pub(crate) fn answer_all<T: Threads + Wait + Sync, W: Write>(
    desk: &mut Desk<'_, T>,
    run: &mut Served,
    ahead: &mut Ahead,
    writer: &mut W,
) -> Result<(), RunFault>
    requires sound { IsSound desk.old ahead.old }
    requires room { run.old.answered + length (flat ahead.old) + 1 < 2 ^ 64 }
    ensures same { KeepsSetup desk.old desk.new }
    ensures answered { ByEnd result
        (λ _. GoesAhead W.contents (flat ahead.old) (at desk.old run.old writer.old) (at desk.new run.new writer.new)
        × (run.new.answered ≡ run.old.answered + length (flat ahead.old))) ⊥ ⊥
        (BreaksAhead W.contents (flat ahead.old) (at desk.old run.old writer.old) writer.new) }
{
    'stretches: while let Some(stretch) = ahead.next_stretch() {
        answer_stretch(desk, run, stretch, writer)?;
        writer.put_full(&mut run.reply.sink)?;
    }
    Ok(())
}
