//! Messages that arrive together, taken in one after the other.

ghost use Rattle.std.specs.Prelude.{◌≡◌, ◌<◌, ◌≤◌, [], All, IfNone, IfSome, OnErr, OnOk, length, reverse};
ghost use Rattle.std.specs.Vec.{vec_capacity, vec_len};
ghost use Rattle.rubis_message.specs.Message.{sites_of};
ghost use Rattle.rubis_replica.specs.State.{TakesFirst};
ghost use Rattle.rubis_replica.specs.declared.faults.Fault.TheVariants as Fault;

use crate::faults::Fault;
use rubis_message::{Arrival, Message};
use rubis_release::{Intake, IntakeFault};
use rubis_schema::{Items, Refusal};
use std::alloc::{AllocError, Global};

/// What became of messages that arrived together.
#[derive(Drop)]
pub struct Arrived {
    /// The answer to each of the first of them.
    pub answers: Items<Result<Arrival, Refusal>>,
    /// The others.
    pub rest: Items<Message>,
    /// Why these weren't taken in.
    pub fault: Option<Fault>,
}

// Takes messages in, the last of the list first. One for which there is no memory goes back, and those before it stay.
fn take_from_end(
    intake: &mut Intake,
    rest: &mut Vec<Message>,
    answers: &mut Vec<Result<Arrival, Refusal>>,
) -> Result<(), AllocError>
    requires sites { All (λ m. sites_of m ≡ intake.old.place.sites) rest.old.items }
    requires none { answers.old.items ≡ [] }
    requires room { vec_len rest.old ≤ vec_capacity answers.old }
    ensures place { intake.new.place ≡ intake.old.place }
    ensures first { TakesFirst intake.old.place intake.old.state intake.new.state (reverse rest.old.items) answers.new.items (reverse rest.new.items) }
    ensures ok { OnOk result (rest.new.items ≡ []) }
    ensures err { OnErr result (0 < vec_len rest.new) }
{
    while let Some(message) = rest.pop() {
        let answer = match intake.arrive(message) {
            Ok(arrival) => Ok(arrival),
            Err(IntakeFault::Refused(refusal)) => Err(refusal),
            Err(IntakeFault::Memory(message)) => {
                rest.push_reserved(message);
                return Err(AllocError);
            }
        };
        answers.push_reserved(answer);
    }
    Ok(())
}

/// Takes messages in, one after the other, as far as memory goes.
pub(crate) fn take_all(alloc: Global, intake: &mut Intake, messages: Vec<Message>) -> Arrived
    requires sites { All (λ m. sites_of m ≡ intake.old.place.sites) messages.items }
    ensures place { intake.new.place ≡ intake.old.place }
    ensures first { TakesFirst intake.old.place intake.old.state intake.new.state messages.items result.answers result.rest }
    ensures none { IfNone result.fault (result.rest ≡ []) }
    ensures fault { IfSome result.fault (λ fault. (fault ≡ Fault.Memory) × (0 < length result.rest)) }
{
    let mut rest = messages;
    if rest.is_empty() {
        return Arrived {
            answers: Items::new(alloc),
            rest: rest.into(),
            fault: None,
        };
    }
    let Ok(mut answers) = Vec::with_capacity(alloc, rest.len()) else {
        return Arrived {
            answers: Items::new(alloc),
            rest: rest.into(),
            fault: Some(Fault::Memory),
        };
    };
    rest.reverse();
    let ended = take_from_end(intake, &mut rest, &mut answers);
    rest.reverse();
    Arrived {
        answers: answers.into(),
        rest: rest.into(),
        fault: if ended.is_ok() {
            None
        } else {
            Some(Fault::Memory)
        },
    }
}
