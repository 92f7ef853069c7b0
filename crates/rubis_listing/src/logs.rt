//! The listings of the log and of what didn't fit.

ghost use Rattle.std.specs.Prelude.{◌≡◌, ◌+◌, ◌≤◌, IfOk, OnOk, length, slice_range};
ghost use Rattle.rubis_model.specs.Listings.{kind_name, log_from, log_record, log_rows, misfit_record, misfit_rows as rows_of_misfits};

use rubis_message::{Message, append_message};
use rubis_schema::{Fields, Items, RowSink, push_number};
use rubis_shadow::{Misfit, MisfitKind};
use std::alloc::{AllocError, Global};

// The record of a message that is that entry of the log.
fn put_entry(fields: &mut Fields, entry: u64, message: &Message) -> Result<(), AllocError>
    ensures { OnOk result (fields.new ≡ log_record entry message.now) }
{
    fields.clear();
    fields.push_plain(b"row")?;
    fields.push_plain(b"log")?;
    push_number(fields, entry)?;
    append_message(fields, message)
}

// Adds the rows of the messages of a log from a place on, up to another. The entry of a message is its place, counted from 1.
pub fn put_entries<S: RowSink>(
    alloc: Global,
    sink: &mut S,
    log: &[Message],
    from: usize,
    upto: usize,
) -> Result<(), AllocError>
    requires from { from ≤ upto }
    requires upto { upto ≤ length log.now }
    ensures { OnOk result (S.adds (log_from (from + 1) (slice_range log.now from upto)) sink.old sink.new) }
{
    let mut record = Fields::new(alloc);
    for place in from..upto {
        put_entry(&mut record, place as u64 + 1, &log[place])?;
        sink.put(&record)?;
    }
    Ok(())
}

// The word for why a part didn't fit.
fn name_of(kind: MisfitKind) -> &'static [u8]
    ensures { result.now ≡ kind_name kind }
{
    match kind {
        MisfitKind::RowThere => b"RowThere",
        MisfitKind::NoRow => b"NoRow",
        MisfitKind::ClosedItem => b"ClosedItem",
        MisfitKind::StockShort => b"StockShort",
        MisfitKind::OtherUser => b"OtherUser",
    }
}

// The record of a misfit.
fn put_misfit(fields: &mut Fields, misfit: &Misfit) -> Result<(), AllocError>
    ensures { OnOk result (fields.new ≡ misfit_record misfit.now) }
{
    fields.clear();
    fields.push_plain(b"row")?;
    fields.push_plain(b"misfit")?;
    push_number(fields, u64::from(misfit.entry))?;
    push_number(fields, u64::from(misfit.part))?;
    misfit.id.push_to(fields)?;
    fields.push(name_of(misfit.kind))
}

// Adds the rows of misfits, in their order.
pub fn put_misfits<S: RowSink>(
    alloc: Global,
    sink: &mut S,
    misfits: &[Misfit],
) -> Result<(), AllocError>
    ensures { OnOk result (S.adds (rows_of_misfits misfits.now) sink.old sink.new) }
{
    let mut record = Fields::new(alloc);
    for misfit in misfits {
        put_misfit(&mut record, misfit)?;
        sink.put(&record)?;
    }
    Ok(())
}

/// The messages of a log, in its order, with entries from 1.
pub fn log(alloc: Global, log: &[Message]) -> Result<Items<Fields>, AllocError>
    ensures { IfOk result (λ rows. rows ≡ log_rows log.now) }
{
    let mut rows = Items::new(alloc);
    put_entries(alloc, &mut rows, log, 0, log.len())?;
    Ok(rows)
}

/// Misfits, in their order.
pub fn misfit_rows(alloc: Global, misfits: &[Misfit]) -> Result<Items<Fields>, AllocError>
    ensures { IfOk result (λ rows. rows ≡ rows_of_misfits misfits.now) }
{
    let mut rows = Items::new(alloc);
    put_misfits(alloc, &mut rows, misfits)?;
    Ok(rows)
}
