//! The calls of a site as tries: by what each promises it is one, with an answer or without, and the law speaks of lists of these.

ghost use Rattle.std.specs.Prelude.{◌≡◌, ℕ, List, OnOk, All};
ghost use Rattle.rubis_shadow.specs.Shadows.{IsAsk};
ghost use Rattle.rubis_message.specs.Message.{sites_of};
ghost use Rattle.rubis_replica.specs.Tries.{AnswersAsWithoutRefusals, AnswersTheSameAgain, ComeTogether, Leads, answer_by};
ghost use Rattle.rubis_replica.specs.Tries.Call.{Apply, Arrive, Decide, Pass, Show, Take};
ghost use Rattle.rubis_replica.specs.Tries.Value.{Applied, Came, Handed, Made, Rows, Took};

use crate::arriving::Arrived;
use crate::faults::Fault;
use crate::site::Site;
use rubis_message::{Arrival, Message, Taken, Token};
use rubis_schema::{Fields, Items, Listing, SharedSink};
use rubis_shadow::Ask;
use rubis_workers::Gate;
use std::sync::Wait;
use std::thread::Threads;

/// Want of memory aside, a site's answers are those of the model. However often calls are refused for memory, or because the site
/// is behind, each answer that is given is the model's answer to the calls answered before it; and a call that is made again,
/// after the site has caught up where it was behind, answers what it would have answered at first.
pub fn refused_memory_changes_no_answer()
    ensures answers { AnswersAsWithoutRefusals }
    ensures again { AnswersTheSameAgain }
{}

/// A request is a try of its ask. As with every call, the site stays the same one.
pub fn try_request<G: Gate, R: Threads + Wait + Sync>(
    site: &mut Site<G>,
    rt: &R,
    ask: Ask,
) -> Result<Message, Fault>
    requires { IsAsk site.old.place.sites ask }
    ensures place { site.new.place ≡ site.old.place }
    ensures tried { Leads site.old.place site.old.state (Decide ask) (answer_by Made result) site.new.state }
{
    site.request(rt, ask)
}

/// A message that arrives is a try.
pub fn try_arrive<G: Gate, R: Threads + Wait + Sync>(
    site: &mut Site<G>,
    rt: &R,
    message: Message,
) -> Result<Arrival, Fault>
    requires { sites_of message ≡ site.old.place.sites }
    ensures place { site.new.place ≡ site.old.place }
    ensures tried { Leads site.old.place site.old.state (Arrive message) (answer_by Came result) site.new.state }
{
    site.arrive(rt, message)
}

/// Messages that arrive together are tries, each in its turn, up to the first one without an answer.
pub fn try_arrive_all<G: Gate, R: Threads + Wait + Sync>(
    site: &mut Site<G>,
    rt: &R,
    messages: Vec<Message>,
) -> Arrived
    requires { All (λ m. sites_of m ≡ site.old.place.sites) messages.items }
    ensures place { site.new.place ≡ site.old.place }
    ensures tried { ComeTogether site.old.place site.old.state messages.items result.answers result.rest site.new.state }
{
    site.arrive_all(rt, messages)
}

/// So they are where what is pending waits on.
pub fn try_arrive_within<G: Gate, R: Threads + Wait + Sync>(
    site: &mut Site<G>,
    rt: &R,
    messages: Vec<Message>,
    most: usize,
) -> Arrived
    requires { All (λ m. sites_of m ≡ site.old.place.sites) messages.items }
    ensures place { site.new.place ≡ site.old.place }
    ensures tried { ComeTogether site.old.place site.old.state messages.items result.answers result.rest site.new.state }
{
    site.arrive_within(rt, messages, most)
}

/// A token that arrives is a try.
pub fn try_token<G: Gate>(site: &mut Site<G>, token: Token) -> Result<Taken, Fault>
    ensures place { site.new.place ≡ site.old.place }
    ensures tried { Leads site.old.place site.old.state (Take token) (answer_by Took result) site.new.state }
{
    site.token(token)
}

/// To pass the token on is a try.
pub fn try_pass<G: Gate>(site: &mut Site<G>, to: u8) -> Result<Token, Fault>
    ensures place { site.new.place ≡ site.old.place }
    ensures tried { Leads site.old.place site.old.state (Pass to) (answer_by Handed result) site.new.state }
{
    site.pass(to)
}

/// A listing is a try, whose answer is the rows that it returns.
pub fn try_list<G: Gate, R: Threads + Wait + Sync>(
    site: &mut Site<G>,
    rt: &R,
    listing: &Listing,
) -> Result<Items<Fields>, Fault>
    ensures place { site.new.place ≡ site.old.place }
    ensures tried { Leads site.old.place site.old.state (Show listing.now) (answer_by Rows result) site.new.state }
{
    site.list(rt, listing)
}

/// The same of a listing whose rows are added to what takes them.
pub fn try_list_into<S: SharedSink, G: Gate, R: Threads + Wait + Sync>(
    site: &mut Site<G>,
    rt: &R,
    listing: &Listing,
    sink: &mut S,
) -> Result<(), Fault>
    ensures place { site.new.place ≡ site.old.place }
    ensures tried { (rows : List (List (List ℕ))) × OnOk result (S.adds rows sink.old sink.new)
        × Leads site.old.place site.old.state (Show listing.now) (answer_by (λ _. Rows rows) result) site.new.state }
{
    site.list_into(rt, listing, sink)
}

/// To make a site ready for a listing, whose rows it shows then, only applies something.
pub fn try_prepare<G: Gate, R: Threads + Wait + Sync>(
    site: &mut Site<G>,
    rt: &R,
    listing: &Listing,
) -> Result<(), Fault>
    ensures place { site.new.place ≡ site.old.place }
    ensures tried { Leads site.old.place site.old.state Apply (answer_by (λ _. Applied) result) site.new.state }
{
    site.prepare(rt, listing)
}

/// A cut only applies something.
pub fn try_cut<G: Gate, R: Threads + Wait + Sync>(site: &mut Site<G>, rt: &R) -> Result<u32, Fault>
    ensures place { site.new.place ≡ site.old.place }
    ensures tried { Leads site.old.place site.old.state Apply (answer_by (λ _. Applied) result) site.new.state }
{
    site.cut(rt)
}

/// So does a site that catches up.
pub fn try_catch_up<G: Gate>(site: &mut Site<G>) -> Result<u32, Fault>
    ensures place { site.new.place ≡ site.old.place }
    ensures tried { Leads site.old.place site.old.state Apply (answer_by (λ _. Applied) result) site.new.state }
{
    site.catch_up()
}
