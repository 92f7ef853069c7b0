//! A helper of one of several crews.

ghost use Rattle.std.specs.Prelude.{◌≡◌};
ghost use Rattle.rubis_crew.specs.States.{new_helper};

use crate::crew::{Crew, Found, Helper};
use crate::job::Job;
use std::sync::Wait;

/// A helper that owes nothing, and whether it was told that no more jobs come: each is told so once.
#[derive(Drop)]
pub struct Post<J: Job> {
    helper: Helper<J>,
    over: bool,
    ghost owes: { helper.paid ≡ helper.taken },
}

impl<J: Job> Post<J> {
    ghost use Rattle.std.specs.Prelude.{true};
    ghost use Rattle.rubis_crew.specs.Both.{StaysToldOnce};
    ghost use Rattle.rubis_crew.specs.declared.crew.Found.TheVariants.{Over};

    /// It wasn't told yet.
    pub(crate) fn new(helper: Helper<J>) -> Post<J>
        requires { helper.paid ≡ helper.taken }
        ensures { result.helper ≡ helper }
    {
        Post {
            helper,
            over: false,
        }
    }

    /// One more helper.
    pub(crate) fn another(&mut self, crew: &Crew<J>) -> Post<J>
        requires { self.old.helper.crew ≡ crew.now.id }
        ensures fresh { result.helper ≡ new_helper crew.now.id }
        ensures same { self.new.helper ≡ self.old.helper }
    {
        Post::new(crew.another(&mut self.helper))
    }

    /// Does the first job, if there is one. It takes once that no more come.
    pub(crate) fn help<R: Wait>(&mut self, rt: &R, crew: &Crew<J>) -> Found
        requires { self.old.helper.crew ≡ crew.now.id }
        ensures crew { self.new.helper.crew ≡ crew.now.id }
        ensures once { StaysToldOnce self.old self.new }
        ensures over { (result ≡ Over → self.new.over ≡ true) × (self.new.over ≡ true → result ≡ Over) }
    {
        if self.over {
            return Found::Over;
        }
        let found = crew.help(rt, &mut self.helper);
        self.over = found == Found::Over;
        found
    }
}
