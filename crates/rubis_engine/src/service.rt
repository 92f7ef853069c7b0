//! What answers records, and what it answers with.

ghost use Rattle.std.specs.Prelude.{◌≡◌, ◌<◌, ◌++◌, ◌∷◌, [], ℕ, List, OnOk};
ghost use Rattle.rubis_engine.specs.Accounts.{Account, Keeps, LeadsAlike};
ghost use Rattle.rubis_engine.specs.Accounts.Ending.{AtEnd, Cut};
ghost use Rattle.rubis_engine.specs.Progress.{IsAnswer};

use crate::fault::{OutOfMemory, RunFault};
use crate::input_record::InputRecord;
use crate::sink::Sink;
use rubis_schema::{Fields, PlainRow};
use std::alloc::Global;
use std::io::Write;

/// A row that is being made: in place, if none of its fields calls for quotes, or as a list of fields.
#[derive(Drop)]
pub struct Draft {
    pub row: PlainRow,
    pub fields: Fields,
}

/// What a record is answered with: its number, the row that is being made, and the text of all rows that wait to be written.
#[derive(Drop)]
pub struct Reply {
    /// The number of the record, counted from 1.
    pub number: u64,
    pub draft: Draft,
    pub sink: Sink,
}

impl Reply {
    /// With no text, before the first record. It takes no memory yet.
    pub fn new(alloc: Global) -> Reply
        ensures { result.sink ≡ [] }
    {
        Reply {
            number: 0,
            draft: Draft {
                row: PlainRow::new(),
                fields: Fields::new(alloc),
            },
            sink: Sink::new(alloc),
        }
    }
}

/// Whether a run goes on after a record.
#[derive(Clone, Copy, PartialEq, Eq)]
pub enum Course {
    /// The next record is answered.
    GoesOn,
    /// The run ends here, whatever follows.
    Ends,
}

/// What answers records, one after the other, with what it holds back.
pub trait Service {
    /// What is still to be made of the records that follow, the first of which has this number.
    ghost account: { Self → ℕ → Account };

    /// These records, the first of which has this number, lead it from the one state to the other, and there nothing is held back.
    ghost leads: { Self → ℕ → List (List (List ℕ)) → Self → Type 0 };

    /// What it is set up as, and stays whatever it answers.
    ghost Setup: { Type 0 };

    ghost setup: { Self → Setup };

    /// What is to be known of what its answers share with other threads: a bound of a block is known to the calling thread alone.
    ghost shares: { Type 0 };

    /// Answers the record whose number the reply has, and says whether the run goes on. A long answer is written out while it is made.
    /// What was written, what waits in the reply and what is still to be written are together the text; where the run ends here, what was
    /// written and what waits are all of it.
    ///
    /// # Errors
    ///
    /// `Write` where the writer failed, and `Memory` if memory ran out: a prefix of the text was written then.
    fn answer<W: Write>(
        &mut self,
        fields: &InputRecord,
        reply: &mut Reply,
        writer: &mut W,
    ) -> Result<Course, RunFault>
        requires { shares }
        ensures same { setup self.new ≡ setup self.old }
        ensures answer { IsAnswer account leads self.old self.new reply.old reply.new (W.contents writer.old) (W.contents writer.new) fields.now result };

    /// Answers what is held back. Nothing is then left to be written if the run is cut short here.
    fn answer_held(&mut self, reply: &mut Reply) -> Result<(), OutOfMemory>
        requires { shares }
        ensures same { setup self.new ≡ setup self.old }
        ensures keeps { OnOk result ((number : ℕ) → Keeps (account self.old number) (account self.new number) reply.old.sink reply.new.sink) }
        ensures none { OnOk result ((number : ℕ) → (account self.new number).text Cut [] ≡ []) }
        ensures rests { OnOk result ((number : ℕ) → leads self.new number [] self.new) }
        ensures leads { OnOk result (LeadsAlike leads self.old self.new) };

    /// Gives the last answers: writes all that is left to be written if the input ends here.
    fn answer_end(&mut self, reply: &mut Reply) -> Result<(), OutOfMemory>
        requires { shares }
        ensures same { setup self.new ≡ setup self.old }
        ensures text { OnOk result ((number : ℕ) → reply.old.sink ++ (account self.old number).text AtEnd [] ≡ reply.new.sink) }
        ensures leads { OnOk result ((number : ℕ) → leads self.old number [] self.new) };

    // Of no records none is read.
    ghost reads_none: { (s : Self) (number : ℕ) → (account s number).read [] ≡ 0 };

    // Of some records at least one is read.
    ghost reads_next: { (s : Self) (number : ℕ) (fields : List (List ℕ)) (more : List (List (List ℕ))) → 0 < (account s number).read (fields ∷ more) };
}
