//! A record as it was read.

ghost use Rattle.std.specs.Prelude.{◌≡◌, ◌⊎◌, [], IfErr, IfOk};
ghost use Rattle.csv.specs.Records.{fields_of};
ghost use Rattle.rubis_engine.specs.Reading.{LeavesFewer, ReadsNext};

use crate::fault::RunFault;
use csv::{ByteRecord, Reader};
use rubis_schema::{Fields, Record};
use std::alloc::{AllocError, Global};
use std::io::Read;
use std::marker::Model;

/// A record of the input. Its fields are looked at where the reader of CSV put them.
#[derive(Drop)]
pub struct InputRecord {
    fields: ByteRecord,
}

impl Model for InputRecord {
    ghost use Rattle.std.specs.Prelude.{ℕ, List};
    ghost use Rattle.csv.specs.Records.{fields_of};

    ghost Value = { List (List ℕ) };

    ghost view = { λ r. fields_of r.fields };
}

// A copy of all fields that were read.
fn copy_fields(alloc: Global, read: &ByteRecord) -> Result<Fields, AllocError>
    ensures { IfOk result (λ fields. fields ≡ fields_of read.now) }
{
    let mut fields = Fields::with_room(alloc, read.as_slice().len(), read.len())?;
    for place in 0..read.len() {
        if let Some(field) = read.get(place) {
            fields.push_read(field)?;
        }
    }
    Ok(fields)
}

impl InputRecord {
    /// A record without fields, before one is read.
    pub fn new(alloc: Global) -> InputRecord
        ensures { result ≡ [] }
    {
        InputRecord {
            fields: ByteRecord::new(alloc),
        }
    }

    /// Reads the next record of a reader in its place, and says whether there was one.
    ///
    /// # Errors
    ///
    /// `Read` if the reader failed, and `Memory` if there wasn't enough memory for the record.
    #[inline(always)]
    pub fn read_from<R: Read>(&mut self, reader: &mut Reader<R>) -> Result<bool, RunFault>
        ensures takes { IfOk result (λ found. ReadsNext R.remaining reader.old reader.new found self.new) }
        ensures fewer { IfOk result (λ found. LeavesFewer R.remaining reader.old reader.new found) }
        ensures faults { IfErr result (λ e. (e ≡ RunFault.Read) ⊎ (e ≡ RunFault.Memory)) }
    {
        let found = match reader.read_byte_record(&mut self.fields) {
            Ok(found) => found,
            Err(e) => {
                if e.is_io_error() {
                    return Err(RunFault::Read);
                }
                return Err(RunFault::Memory);
            }
        };
        Ok(found)
    }

    /// Its fields, as a record that outlives the next one of the input.
    pub fn to_fields(&self, alloc: Global) -> Result<Fields, AllocError>
        ensures { IfOk result (λ fields. fields ≡ self.now) }
    {
        copy_fields(alloc, &self.fields)
    }
}

impl Record for InputRecord {
    ghost fields = { λ r. r };

    #[inline(always)]
    fn len(&self) -> usize {
        self.fields.len()
    }

    #[inline(always)]
    fn field(&self, place: usize) -> Option<&[u8]> {
        self.fields.get(place)
    }
}
