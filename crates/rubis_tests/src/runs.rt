//! Tests of runs of a site: on inputs that no conversation can write down, up to limits, and on readers and writers that fail.

use crate::failing_streams::{FailingReader, read_until_each_byte, write_until_each_call};
use crate::rigs::Rig;
use rubis_world::{Config, Count, RunFault, SiteGate, Watch, run_site, run_site_upto};
use std::alloc::{AllocError, Global};
use std::sync::Arc;
use std::test::Fail;

/// Adds a line.
pub fn add_line(text: &mut String, line: &str) -> Result<(), AllocError> {
    text.push_str(line)?;
    text.push_str("\n")
}

// Both sides of a conversation, each line with its end: a line that begins with `> ` is a record of the input, and the lines below it are
// the answers to it.
fn take_apart(alloc: Global, transcript: &str) -> Result<(String, String), AllocError> {
    let (mut said, mut heard) = (String::new(alloc), String::new(alloc));
    for line in transcript.lines() {
        match line.strip_prefix("> ") {
            Some(record) => add_line(&mut said, record)?,
            None => add_line(&mut heard, line)?,
        }
    }
    Ok((said, heard))
}

// The configuration of the first of `sites` sites, with the program's defaults for everything else.
fn usual(sites: u8) -> Result<Config, Fail> {
    Ok(Config::new(0, sites, 4, 2, 64, 1_000_000).ok_or("a configuration")?)
}

/// Runs the second of two sites on that many records, where each shard is held until `threads` threads hold one. Returns what was
/// seen at its gate, and what it wrote.
pub fn run_watched(
    rt: &impl Rig,
    input: &str,
    records: u64,
    shards: u8,
    workers: u8,
    batch: u32,
    threads: u64,
) -> Result<(Arc<Watch, Global>, Vec<u8>), Fail> {
    let config = Config::new(1, 2, shards, workers, batch, 10_000).ok_or("a configuration")?;
    let watch = Arc::new(
        rt.alloc(),
        Watch::new(rt.alloc(), shards as usize, threads)?,
    )?;
    let gate = SiteGate::watched(Arc::try_clone(&watch).or(Err("an owner"))?);
    let (input, mut out) = (input.as_bytes(), Vec::new(rt.alloc()));
    let end = run_site_upto(rt, rt.alloc(), input, &mut out, &config, 10_000, gate);
    assert_eq!(rt; end, Ok(Count { records }));
    Ok((watch, out))
}

#[test]
fn configurations_at_their_limits(rt: HostRuntime) {
    assert!(rt; Config::new(15, 16, 64, 16, 65_536, 1_000_000).is_some());
    for (site, sites, shards, workers, batch, keep) in [
        (1, 1, 1, 1, 1, 1),
        (0, 0, 1, 1, 1, 1),
        (0, 17, 1, 1, 1, 1),
        (0, 1, 0, 1, 1, 1),
        (0, 1, 65, 1, 1, 1),
        (0, 1, 1, 0, 1, 1),
        (0, 1, 1, 17, 1, 1),
        (0, 1, 1, 1, 0, 1),
        (0, 1, 1, 1, 65_537, 1),
        (0, 1, 1, 1, 1, 0),
        (0, 1, 1, 1, 1, 1_000_001),
    ] {
        assert!(rt; Config::new(site, sites, shards, workers, batch, keep).is_none());
    }
}

const ONE_USER_ANSWERED: &[u8] = b"reply,1,ok,0.1\nsend,msg,1,0,1,1,0,user,ann\n";

#[test]
fn ends_of_lines(rt: HostRuntime) -> Result<(), Fail> {
    let config = usual(1)?;
    for input in [
        b"user,ann".as_slice(),
        b"user,ann\n",
        b"user,ann\r\n",
        b"\n\nuser,ann\n",
        b"\r\n\r\nuser,ann",
    ] {
        let mut out = Vec::new(rt.alloc());
        let end = run_site(&rt, rt.alloc(), input, &mut out, &config);
        assert_eq!(rt; end, Ok(Count { records: 1 }));
        assert!(rt; out.as_slice() == ONE_USER_ANSWERED);
    }
    Ok(())
}

// Runs a site up to that many records, of which there are more. Returns what it wrote.
fn run_too_long(rt: &impl Rig, config: &Config, said: &[u8], limit: u64) -> Vec<u8> {
    let mut out = Vec::new(rt.alloc());
    let gate = SiteGate::free();
    let end = run_site_upto(rt, rt.alloc(), said, &mut out, config, limit, gate);
    assert_eq!(rt; end.err(), Some(RunFault::TooLong), "at {limit}");
    out
}

#[test]
fn a_limit_of_one_record(rt: HostRuntime) -> Result<(), Fail> {
    let out = run_too_long(&rt, &usual(1)?, b"user,ann\nuser,ann\n", 1);
    assert!(rt; out.as_slice() == ONE_USER_ANSWERED);
    Ok(())
}

// A bit of everything.
const EVERYTHING: &str = "\
> user,ann
reply,1,ok,0.1
send,msg,1,0,1,1,0:0,user,ann
> user,Bob
reply,2,refused,1,BadRecord
> user,bob
reply,3,ok,0.2
send,msg,1,0,2,2,1:0,user,bob
> item,0.1,\"vase, \"\"blue\"\"\",7,2,100,150
reply,4,ok,0.3
send,msg,1,0,3,0,2:0,item,0.1,\"vase, \"\"blue\"\"\",7,2,100,150
> bid,0.3,0.2,120
reply,5,ok,0.4
send,msg,1,0,4,3,3:0,bid,0.3,0.2,120
> buy,0.3,0.2,1
reply,6,ok,0.5
send,msg,1,0,5,4,4:0,buy,0.3,0.2,1
> comment,0.3,0.2,0.1,-5,late
reply,7,ok,0.6
send,msg,1,0,6,0,5:0,comment,0.3,0.2,0.1,-5,late
> close,0.3,0.1
reply,8,ok,0.7
send,msg,1,0,7,5,6:0,close,0.3,7,0.4
> pass,1
reply,9,passed
send,token,1,1,1,5
> list,users
reply,10,rows,2
row,user,0.1,ann,1,0,-5,1
row,user,0.2,bob,0,1,0,0
";

// An auction of two equal bids, at a site alone.
const AUCTION: &str = "\
> user,ann
reply,1,ok,0.1
send,msg,1,0,1,1,0,user,ann
> user,bob
reply,2,ok,0.2
send,msg,1,0,2,2,1,user,bob
> user,cat
reply,3,ok,0.3
send,msg,1,0,3,3,2,user,cat
> item,0.1,lamp,7,1,100,0
reply,4,ok,0.4
send,msg,1,0,4,0,3,item,0.1,lamp,7,1,100,0
> bid,0.4,0.2,500
reply,5,ok,0.5
send,msg,1,0,5,4,4,bid,0.4,0.2,500
> bid,0.4,0.3,500
reply,6,ok,0.6
send,msg,1,0,6,5,5,bid,0.4,0.3,500
> close,0.4,0.1
reply,7,ok,0.7
send,msg,1,0,7,6,6,close,0.4,7,0.5
> list,items,7
reply,8,rows,1
row,item,0.4,0.1,lamp,7,1,0,100,0,2,0.5,500,closed,0.5
> list,categories
reply,9,rows,1
row,category,7,1,0
> list,bids,0.4
reply,10,rows,2
row,bid,0.5,0.4,0.2,500,4
row,bid,0.6,0.4,0.3,500,5
";

// Four messages that are a window where batches aren't smaller.
const FOUR: &str = "\
> msg,1,0,1,1,0:0,user,ann
reply,1,released,1
> msg,1,0,2,2,1:0,user,bob
reply,2,released,1
> msg,1,0,4,4,3:0,user,dan
reply,3,held
> msg,1,0,3,3,2:0,user,cat
reply,4,released,2
";

#[test]
fn a_record_after_any_limit(rt: HostRuntime) -> Result<(), Fail> {
    let (said, heard) = take_apart(rt.alloc(), EVERYTHING)?;
    let config = usual(2)?;
    for limit in 0..10 {
        let out = run_too_long(&rt, &config, said.as_bytes(), limit);
        assert!(rt; heard.as_bytes().starts_with(out.as_slice()));
        assert!(rt; limit == 0 || out.as_slice().ends_with(b"\n"));
    }
    Ok(())
}

// All is answered once all records are read.
#[test]
fn a_reader_that_fails_after_any_byte(rt: HostRuntime) -> Result<(), Fail> {
    for (transcript, sites) in [(EVERYTHING, 2), (AUCTION, 1)] {
        let (config, (said, heard)) = (usual(sites)?, take_apart(rt.alloc(), transcript)?);
        let (said, heard) = (said.as_bytes(), heard.as_bytes());
        read_until_each_byte(&rt, said, heard, said.len(), heard, |reader, out| {
            run_site(&rt, rt.alloc(), reader, out, &config)
        });
    }
    Ok(())
}

#[test]
fn a_writer_that_fails_at_any_call(rt: HostRuntime) -> Result<(), Fail> {
    for (transcript, sites) in [(EVERYTHING, 2), (AUCTION, 1)] {
        let (config, (said, heard)) = (usual(sites)?, take_apart(rt.alloc(), transcript)?);
        write_until_each_call(&rt, heard.as_bytes(), |writer| {
            run_site(&rt, rt.alloc(), said.as_bytes(), writer, &config)
        });
    }
    Ok(())
}

// A window is held when the reader fails: all of it is answered, since it was read whole before.
#[test]
fn what_was_read_before_a_fault_is_answered(rt: HostRuntime) -> Result<(), Fail> {
    let (said, heard) = take_apart(rt.alloc(), FOUR)?;
    for (batch, workers) in [(1, 1), (64, 1), (3, 2), (64, 2), (64, 16)] {
        let config = Config::new(1, 2, 4, workers, batch, 100).ok_or("a configuration")?;
        let reader = FailingReader::new(said.as_bytes(), true);
        let mut out = Vec::new(rt.alloc());
        let end = run_site(&rt, rt.alloc(), reader, &mut out, &config);
        assert_eq!(rt; end.err(), Some(RunFault::Read), "{workers} workers");
        assert!(rt; out.as_slice() == heard.as_bytes(), "{workers} workers");
    }
    Ok(())
}
