//! Helpers that stay at two crews.

ghost use Rattle.std.specs.Prelude.{◌≡◌, ◌<◌};
ghost use Rattle.std.specs.Thread.{IsSync};
ghost use Rattle.rubis_crew.specs.Both.{FindsOver, IsAt, IsOver, StayToldOnce};

use crate::crew::{Crew, Found, Helper};
use crate::job::Job;
use crate::post::Post;
use std::sync::Wait;
use std::thread::{Threads, join};

/// A helper of two crews, of which one was made beside the other. Whatever it took is paid for.
#[derive(Drop)]
pub struct Both<J: Job, K: Job> {
    first: Post<J>,
    second: Post<K>,
}

// A helper and `more` others, each in a thread of its own and the first in this one, until no more jobs come: no more of them than are
// told so, since one that isn't would wait forever.
fn stay_with<J: Job, K: Job, R: Threads + Wait + Sync>(
    rt: &R,
    first: &Crew<J>,
    second: &Crew<K>,
    me: &mut Both<J, K>,
    more: usize,
)
    requires at { IsAt first.now.id second.now.id me.old }
    requires told { (more < first.now.helpers) × (more < second.now.helpers) }
{
    if more == 0 {
        me.stay(rt, first, second);
        return;
    }
    let mut next = me.another(first, second);
    let fewer = more - 1;
    join(
        rt,
        move ||
            requires { IsAt first.now.id second.now.id me.now }
        { me.stay(rt, first, second) },
        move ||
            requires { IsSync R.row × IsAt first.now.id second.now.id next × (fewer < first.now.helpers) × (fewer < second.now.helpers) }
        { stay_with(rt, first, second, &mut next, fewer) },
    );
}

impl<J: Job, K: Job> Both<J, K> {
    /// The helper of which these two are what it needs.
    pub fn new(first: Helper<J>, second: Helper<K>) -> Both<J, K>
        requires owes { (first.paid ≡ first.taken) × (second.paid ≡ second.taken) }
        ensures { IsAt first.crew second.crew result }
    {
        Both {
            first: Post::new(first),
            second: Post::new(second),
        }
    }

    // One more helper.
    fn another(&mut self, first: &Crew<J>, second: &Crew<K>) -> Both<J, K>
        requires { IsAt first.now.id second.now.id self.old }
        ensures fresh { IsAt first.now.id second.now.id result }
        ensures same { IsAt first.now.id second.now.id self.new }
    {
        Both {
            first: self.first.another(first),
            second: self.second.another(second),
        }
    }

    // Does a job of the first crew, if there is one, or else of the second.
    fn help<R: Wait>(&mut self, rt: &R, first: &Crew<J>, second: &Crew<K>) -> Found
        requires { IsAt first.now.id second.now.id self.old }
        ensures at { IsAt first.now.id second.now.id self.new }
        ensures once { StayToldOnce self.old self.new }
        ensures over { FindsOver result self.new }
    {
        match self.first.help(rt, first) {
            Found::AJob => Found::AJob,
            Found::Over => self.second.help(rt, second),
            Found::Nothing => match self.second.help(rt, second) {
                Found::Over => Found::Nothing,
                found => found,
            },
        }
    }

    // Helps, or sleeps until a job is given or no more come, if there is none.
    fn help_or_sleep<R: Wait>(&mut self, rt: &R, first: &Crew<J>, second: &Crew<K>) -> Found
        requires { IsAt first.now.id second.now.id self.old }
        ensures at { IsAt first.now.id second.now.id self.new }
        ensures once { StayToldOnce self.old self.new }
        ensures over { FindsOver result self.new }
    {
        let call = first.prepare_wait();
        let found = self.help(rt, first, second);
        if found == Found::Nothing {
            call.wait(rt);
        }
        found
    }

    /// Helps both crews until no more jobs come, and sleeps while there is none. Jobs of the first go before those of the second.
    pub fn stay<R: Wait>(&mut self, rt: &R, first: &Crew<J>, second: &Crew<K>)
        requires { IsAt first.now.id second.now.id self.old }
        ensures at { IsAt first.now.id second.now.id self.new }
        ensures once { StayToldOnce self.old self.new }
        ensures over { IsOver self.new }
    {
        for _ in rt.forever() {
            let found = match self.help(rt, first, second) {
                Found::Nothing => self.help_or_sleep(rt, first, second),
                other => other,
            };
            if found == Found::Over {
                return;
            }
        }
    }

    /// All helpers that both crews have, made from this one, each in a thread of its own and the first in the caller's, until no more jobs
    /// come. A thread that can't be started leaves its work to the others. This one takes no job, and stays a helper of both.
    pub fn stay_all<R: Threads + Wait + Sync>(&mut self, rt: &R, first: &Crew<J>, second: &Crew<K>)
        requires { IsAt first.now.id second.now.id self.old }
        ensures { IsAt first.now.id second.now.id self.new }
    {
        let helpers = first.helpers().min(second.helpers());
        if helpers > 0 {
            let mut one = self.another(first, second);
            stay_with(rt, first, second, &mut one, helpers - 1);
        }
    }
}
