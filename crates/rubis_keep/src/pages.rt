//! Pages of listings.

ghost use Rattle.std.specs.Prelude.{◌≡◌, ◌⊎◌, ◌++◌, ◌∷◌, [], List, IfOk, IfSome, None, bytes_eq, drop, option_map, take, true};
ghost use Rattle.rubis_engine.specs.Text.{rows_text};
ghost use Rattle.rubis_message.specs.Readings.{request_of};
ghost use Rattle.rubis_model.specs.Site.{Replica};
ghost use Rattle.rubis_schema.specs.FieldForms.{text_of};
ghost use Rattle.rubis_schema.specs.NumberForms.{number_of};
ghost use Rattle.rubis_keep.specs.Questions.{IsUnmoved, AreListed, rows_behind_name, has_pages, page_asked, page_rows, page_with, paged_by, row_name, rows_of_page, rows_in};
ghost use Rattle.rubis_keep.specs.Questions.{counted_rows};
ghost use Rattle.rubis_keep.specs.declared.pages.TheConstants.{PAGE_MAX, PLACE_MAX};

use crate::fault::KeepFault;
use crate::showing::{refuse, show_count};
use crate::site::Clerk;
use rubis_engine::{OutOfMemory, Sink};
use rubis_keys::LaterFields;
use rubis_message::{ReadFault, Request, read_request};
use rubis_schema::{Fields, Items, Listing, Text, read_number};
use rubis_script::write_rows;
use std::alloc::{AllocError, Global};
use std::sync::Wait;
use std::thread::Threads;

/// How many rows a page has at most.
pub const PAGE_MAX: u64 = 65_536;

/// The greatest place of a listing from which a page can be asked for.
pub const PLACE_MAX: u64 = 4_294_967_295;

// A listing with more rows isn't held until its next page is asked for.
const HELD_MAX: usize = 262_144;

/// A page of a listing: at most `most` of the rows behind the first one of the name `after`, which is looked for from the place `from` on.
/// Places count from 0. If the name is empty, the page begins at that place.
#[derive(Drop)]
pub struct Page {
    pub most: u64,
    pub from: u64,
    pub after: Text,
    pub listing: Listing,
}

/// The rows of the listing of which a page was shown last.
#[derive(Drop)]
pub struct Listed {
    pub(crate) listing: Listing,
    pub(crate) rows: Items<Fields>,
}

// Whether a listing has pages.
fn has_pages(listing: &Listing) -> bool
    ensures { result ≡ has_pages listing.now }
{
    match listing {
        Listing::Tables => false,
        _ => true,
    }
}

// The listing with pages for which the fields of a record ask, but for the first four.
fn read_listing(alloc: Global, fields: &Fields, sites: u8) -> Result<Option<Listing>, OutOfMemory>
    ensures { IfOk result (λ listing. listing ≡ paged_by (request_of sites (drop 4 fields.now))) }
{
    match read_request(
        alloc,
        &LaterFields {
            record: fields,
            first: 4,
        },
        sites,
    ) {
        Ok(Request::List(listing)) => {
            if has_pages(&listing) {
                Ok(Some(listing))
            } else {
                Ok(None)
            }
        }
        Ok(_) => Ok(None),
        Err(ReadFault::BadRecord) => Ok(None),
        Err(ReadFault::Memory) => Err(OutOfMemory),
    }
}

// The page that these words say, of this listing.
fn page_with(
    alloc: Global,
    most: &[u8],
    from: &[u8],
    after: &[u8],
    listing: Option<Listing>,
) -> Result<Option<Page>, AllocError>
    ensures { IfOk result (λ page. page ≡ page_with (number_of PAGE_MAX most.now) (number_of PLACE_MAX from.now) (text_of after.now) listing) }
{
    let Some(most) = read_number(most, PAGE_MAX) else {
        return Ok(None);
    };
    let Some(from) = read_number(from, PLACE_MAX) else {
        return Ok(None);
    };
    let Some(after) = Text::read(alloc, after)? else {
        return Ok(None);
    };
    let Some(listing) = listing else {
        return Ok(None);
    };
    Ok(Some(Page {
        most,
        from,
        after,
        listing,
    }))
}

/// The page for which a record asks, if it does.
pub(crate) fn read_page(
    alloc: Global,
    fields: &Fields,
    sites: u8,
) -> Result<Option<Page>, OutOfMemory>
    ensures { IfOk result (λ page. page ≡ page_asked sites fields.now) }
{
    match (
        fields.field(0),
        fields.field(1),
        fields.field(2),
        fields.field(3),
    ) {
        (Some(word), Some(most), Some(from), Some(after)) => {
            if word != b"page".as_slice() {
                return Ok(None);
            }
            let listing = read_listing(alloc, fields, sites)?;
            Ok(page_with(alloc, most, from, after, listing)?)
        }
        _ => Ok(None),
    }
}

// The name of a row that didn't fit: its entry and its part.
fn joined(alloc: Global, entry: &[u8], part: &[u8]) -> Result<Vec<u8>, AllocError>
    ensures { IfOk result (λ name. name.items ≡ entry.now ++ 46 ∷ part.now) }
{
    let mut name = Vec::from_slice(alloc, entry)?;
    name.push(b'.')?;
    name.extend_from_slice(part)?;
    Ok(name)
}

// Whether a row has this name.
fn is_named(alloc: Global, row: &Fields, name: &[u8]) -> Result<bool, AllocError>
    ensures { IfOk result (λ named. named ≡ bytes_eq (row_name row.now) name.now) }
{
    match (row.field(1), row.field(2), row.field(3)) {
        (Some(kind), Some(key), Some(next)) => {
            if kind == b"misfit".as_slice() {
                return Ok(joined(alloc, key, next)?.as_slice() == name);
            }
            Ok(key == name)
        }
        _ => Ok(name.is_empty()),
    }
}

// The place behind the first row of this name, which is looked for from a place on.
fn place_behind(
    alloc: Global,
    rows: &[Fields],
    from: usize,
    name: &[u8],
) -> Result<Option<usize>, AllocError>
    ensures { IfOk result (λ place. option_map (λ at. drop at rows.now) place ≡ rows_behind_name name.now (drop from rows.now)) }
{
    for at in from..rows.len() {
        if is_named(alloc, &rows[at], name)? {
            return Ok(Some(at + 1));
        }
    }
    Ok(None)
}

// The place where a page begins among the rows of its listing.
fn place_of(alloc: Global, rows: &[Fields], page: &Page) -> Result<Option<usize>, AllocError>
    ensures { IfOk result (λ place. option_map (λ at. drop at rows.now) place ≡ rows_of_page page.now rows.now) }
{
    let name = page.after.as_bytes();
    if name.is_empty() {
        return Ok(Some(page.from as usize));
    }
    place_behind(alloc, rows, page.from as usize, name)
}

// Shows rows, and how many they are.
fn show_rows(alloc: Global, rows: &[Fields]) -> Result<Sink, AllocError>
    ensures { IfOk result (λ sink. sink ≡ rows_text (counted_rows rows.now)) }
{
    let mut sink = show_count(alloc, rows.len() as u64)?;
    write_rows(&mut sink, rows)?;
    Ok(sink)
}

// The rows from a place on.
fn rows_behind(rows: &[Fields], place: usize) -> &[Fields]
    ensures { result.now ≡ drop place rows.now }
{
    &rows[place.min(rows.len())..]
}

// The first rows, `most` at most.
fn first_rows(rows: &[Fields], most: u64) -> &[Fields]
    ensures { result.now ≡ take most rows.now }
{
    &rows[..(most as usize).min(rows.len())]
}

// Shows a page of the rows of its listing.
fn show_page(alloc: Global, rows: &[Fields], page: &Page) -> Result<Sink, AllocError>
    ensures { IfOk result (λ sink. sink ≡ rows_text (page_rows page.now rows.now)) }
{
    match place_of(alloc, rows, page)? {
        Some(place) => show_rows(alloc, first_rows(rows_behind(rows, place), page.most)),
        None => refuse(alloc, b"NoRow"),
    }
}

// Whether two listings are the same.
fn is_same(one: &Listing, other: &Listing) -> bool
    ensures { result ≡ true → one.now ≡ other.now }
{
    match (one, other) {
        (Listing::Users, Listing::Users) => true,
        (Listing::Items(cat), Listing::Items(wanted)) => cat == wanted,
        (Listing::Bids(item), Listing::Bids(wanted)) => item == wanted,
        (Listing::Purchases(item), Listing::Purchases(wanted)) => item == wanted,
        (Listing::Comments(user), Listing::Comments(wanted)) => user == wanted,
        (Listing::Categories, Listing::Categories) => true,
        (Listing::Log, Listing::Log) => true,
        (Listing::Misfits, Listing::Misfits) => true,
        _ => false,
    }
}

// The rows that are held, if they are those of this listing.
fn held_rows(held: Option<Listed>, listing: &Listing) -> Option<Items<Fields>>
    ensures { IfSome result (λ rows. (s : Replica) → AreListed s held → rows ≡ rows_in s listing.now) }
{
    match held {
        Some(listed) => {
            if is_same(&listed.listing, listing) {
                Some(listed.rows)
            } else {
                None
            }
        }
        None => None,
    }
}

// The rows of a listing.
fn list_rows<T: Threads + Wait + Sync>(
    rt: &T,
    clerk: &mut Clerk<'_, T>,
    listing: &Listing,
) -> Result<Items<Fields>, KeepFault>
    ensures same { IsUnmoved clerk.old clerk.new }
    ensures rows { IfOk result (λ rows. rows ≡ rows_in clerk.old.keyed.desk.site.state listing.now) }
{
    let desk = &mut clerk.keyed.desk;
    match desk.site.list(rt, listing) {
        Ok(rows) => Ok(rows),
        Err(_) => Err(KeepFault::Memory),
    }
}

// The rows of a listing: those that are held, if they are that one's.
fn take_rows<T: Threads + Wait + Sync>(
    rt: &T,
    clerk: &mut Clerk<'_, T>,
    held: Option<Listed>,
    listing: &Listing,
) -> Result<Items<Fields>, KeepFault>
    requires listed { AreListed clerk.old.keyed.desk.site.state held }
    ensures same { IsUnmoved clerk.old clerk.new }
    ensures rows { IfOk result (λ rows. rows ≡ rows_in clerk.old.keyed.desk.site.state listing.now) }
{
    match held_rows(held, listing) {
        Some(rows) => Ok(rows),
        None => list_rows(rt, clerk, listing),
    }
}

/// Shows a page of a listing. The rows of the listing are held for the next page, if they aren't too many.
pub(crate) fn turn_page<T: Threads + Wait + Sync>(
    rt: &T,
    clerk: &mut Clerk<'_, T>,
    listed: &mut Option<Listed>,
    page: &Page,
) -> Result<Sink, KeepFault>
    requires listed { AreListed clerk.old.keyed.desk.site.state listed.old }
    ensures same { IsUnmoved clerk.old clerk.new }
    ensures listed { AreListed clerk.old.keyed.desk.site.state listed.new }
    ensures rows { IfOk result (λ sink. sink ≡ rows_text (page_rows page.now (rows_in clerk.old.keyed.desk.site.state page.now.listing))) }
{
    let rows = take_rows(rt, clerk, listed.take(), &page.listing)?;
    let sink = show_page(clerk.served.alloc, rows.as_slice(), page)?;
    if rows.len() <= HELD_MAX {
        *listed = Some(Listed {
            listing: page.listing,
            rows,
        });
    }
    Ok(sink)
}

/// Lets go of what is held of a listing, unless no records are answered.
pub(crate) fn let_go(listed: &mut Option<Listed>, records: &[u8])
    ensures { (listed.new ≡ None) ⊎ ((records.now ≡ []) × (listed.new ≡ listed.old)) }
{
    if !records.is_empty() {
        *listed = None;
    }
}
