//! Rows of a listing that several threads make.

ghost use Rattle.std.specs.Prelude.{◌+◌, ◌*◌, ◌≤◌, IfOk, OnOk};
ghost use Rattle.rubis_listing.specs.Parts.{between, rows_of_part, size_of, AreParts};

use crate::sources::Source;
use rayon::current_num_threads;
use rayon::prelude::*;
use rubis_schema::SharedSink;
use std::alloc::{AllocError, Global};
use std::thread::Threads;

/// From this many rows on, several threads make the rows of a listing.
pub const SHARED_MIN: usize = 2_048;

// How many rows a thread makes at a time.
const PART: usize = 512;

// The rows of a part, in a sink of their own: part `at` of those from a place on, up to another.
fn make_part<S: SharedSink>(
    alloc: Global,
    source: &Source<'_>,
    from: usize,
    upto: usize,
    at: usize,
) -> Result<S, AllocError>
    requires place { from + at * 512 ≤ upto }
    requires upto { upto ≤ size_of source.now }
    ensures { IfOk result (S.holds (rows_of_part source.now from upto at)) }
{
    let first = from + at * PART;
    let mut part = S::empty(alloc);
    source.put(alloc, &mut part, first, first + PART.min(upto - first))?;
    Ok(part)
}

// The rows of all parts, each made by one of as many threads as there are processors.
fn make_parts<S: SharedSink, R: Threads + Sync>(
    rt: &R,
    alloc: Global,
    source: &Source<'_>,
    from: usize,
    upto: usize,
) -> Result<Vec<S>, AllocError>
    requires from { from ≤ upto }
    requires upto { upto ≤ size_of source.now }
    ensures { IfOk result (λ parts. AreParts S.holds source.now from upto parts.items) }
{
    let parts: Result<Vec<S>, AllocError> = (0..(upto - from) / PART + 1)
        .into_par_iter()
        .with_min_len(1)
        .map(
            |at: usize| -> Result<S, AllocError>
                requires { (from + at * 512 ≤ upto) × (upto ≤ size_of source.now) }
                ensures { IfOk result (S.holds (rows_of_part source.entry.now from upto at)) }
            { make_part(alloc, source, from, upto, at) },
        )
        .collect(rt, alloc)?;
    parts
}

/// Adds the rows that are made of those from a place on, up to another. Of SHARED_MIN or more, several threads make the rows, if they
/// may and there are several processors, and the caller's thread adds them.
pub fn put_shared<S: SharedSink, R: Threads + Sync>(
    threads: Option<&R>,
    alloc: Global,
    sink: &mut S,
    source: &Source<'_>,
    from: usize,
    upto: usize,
) -> Result<(), AllocError>
    requires from { from ≤ upto }
    requires upto { upto ≤ size_of source.now }
    ensures { OnOk result (S.adds (between source.now from upto) sink.old sink.new) }
{
    let Some(rt) = threads else {
        return source.put(alloc, sink, from, upto);
    };
    if upto - from < SHARED_MIN || current_num_threads(rt) < 2 {
        return source.put(alloc, sink, from, upto);
    }
    for part in make_parts(rt, alloc, source, from, upto)? {
        sink.append(part)?;
    }
    Ok(())
}
