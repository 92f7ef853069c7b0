//! The records of a reader, one at a time.

ghost use Rattle.std.specs.Prelude.{◌≡◌, ◌⊎◌, IfErr, IfOk, IfSome};
ghost use Rattle.rubis_engine.specs.Reading.{Advances, GetsNearer, Gives, fields_now};
ghost use Rattle.rubis_engine.specs.Text.{input_records};

use crate::fault::RunFault;
use crate::input_record::InputRecord;
use csv::{Reader, ReaderBuilder};
use std::alloc::Global;
use std::io::Read;

/// The records of a reader, each with any number of fields, and no header row. A byte order mark at the start is removed.
#[derive(Drop)]
pub struct Records<R> {
    reader: Reader<R>,
    // The one that was read last.
    current: InputRecord,
}

impl<R: Read> Records<R> {
    /// The records of this reader, before the first.
    pub fn new(alloc: Global, reader: R) -> Records<R>
        ensures { IfSome (R.remaining reader) (λ input. Gives R.remaining result (input_records input)) }
    {
        let reader = ReaderBuilder::new()
            .has_headers(false)
            .flexible(true)
            .from_reader(alloc, reader);
        Records {
            reader,
            current: InputRecord::new(alloc),
        }
    }

    /// Goes on to the next record, and says whether there was one. After an error it is not known what is left.
    ///
    /// # Errors
    ///
    /// `Read` if the reader failed, and `Memory` if there wasn't enough memory for the record.
    pub fn advance(&mut self) -> Result<bool, RunFault>
        ensures takes { IfOk result (λ found. Advances R.remaining self.old self.new found) }
        ensures nearer { IfOk result (λ found. GetsNearer R.remaining self.old self.new found) }
        ensures faults { IfErr result (λ e. (e ≡ RunFault.Read) ⊎ (e ≡ RunFault.Memory)) }
    {
        self.current.read_from(&mut self.reader)
    }

    /// The record that was read last.
    pub fn fields(&self) -> &InputRecord
        ensures { result.now ≡ fields_now self.now }
    {
        &self.current
    }
}
