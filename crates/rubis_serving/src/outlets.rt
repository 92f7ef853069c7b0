//! Where the answers of a run go.

ghost use Rattle.std.specs.Prelude.{◌≡◌, [], ℕ, List, IfErr, OnErr, OnOk};
ghost use Rattle.rubis_serving.specs.Outlets.{IsOutlet, PutsAnswer, PutsSome};

use rubis_engine::{Course, InputRecord, Reply, RunFault, Service, Sink};
use std::io::Write;

/// Where the answers of a run go.
pub trait Outlet {
    /// What it comes to where this text is put.
    ghost puts: { List ℕ → Self → Self → Type 0 };

    /// What it comes to where some first bytes of this text are put, or none, and then something fails.
    ghost tears: { List ℕ → Self → Self → Type 0 };

    /// Has a service answer the record whose number the reply has. A long answer may be put while it is made.
    ///
    /// # Errors
    ///
    /// `Write` if some of it couldn't be put, and `Memory` if memory ran out.
    fn answer<S: Service>(
        &mut self,
        service: &mut S,
        fields: &InputRecord,
        reply: &mut Reply,
    ) -> Result<Course, RunFault>
        requires { S.shares }
        ensures same { S.setup service.new ≡ S.setup service.old }
        ensures answer { PutsAnswer puts tears S.account S.leads service.old service.new reply.old reply.new self.old self.new fields.now result };

    /// Puts the text of a sink, which is empty then, if there is so much of it that it is time to.
    ///
    /// # Errors
    ///
    /// `Write` if some of it couldn't be put.
    fn put_full(&mut self, sink: &mut Sink) -> Result<(), RunFault>
        ensures ok { OnOk result (PutsSome puts sink.old sink.new self.old self.new) }
        ensures err { OnErr result (tears sink.old self.old self.new) }
        ensures faults { IfErr result (λ e. e ≡ RunFault.Write) };

    /// Puts the text of a sink, which is empty then. None of it is kept back.
    ///
    /// # Errors
    ///
    /// `Write` if some of it couldn't be put.
    fn put_all(&mut self, sink: &mut Sink) -> Result<(), RunFault>
        ensures ok { OnOk result (puts sink.old self.old self.new) }
        ensures empty { sink.new ≡ [] }
        ensures err { OnErr result (tears sink.old self.old self.new) }
        ensures faults { IfErr result (λ e. e ≡ RunFault.Write) };

    // Texts are put one after the other.
    ghost laws: { IsOutlet puts tears };
}

impl<W: Write> Outlet for W {
    ghost use Rattle.rubis_serving.specs.Outlets.{writes, writes_front};
    ghost use Rattle.rubis_serving.specs.Writers.{are_outlets};

    ghost puts = { writes W.contents };

    ghost tears = { writes_front W.contents };

    #[inline(always)]
    fn answer<S: Service>(
        &mut self,
        service: &mut S,
        fields: &InputRecord,
        reply: &mut Reply,
    ) -> Result<Course, RunFault> {
        service.answer(fields, reply, self)
    }

    #[inline(always)]
    fn put_full(&mut self, sink: &mut Sink) -> Result<(), RunFault> {
        sink.drain_full(self)
    }

    #[inline(always)]
    fn put_all(&mut self, sink: &mut Sink) -> Result<(), RunFault> {
        sink.close(self)
    }

    ghost laws = { are_outlets W.contents };
}
