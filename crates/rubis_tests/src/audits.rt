//! Tests of audits: each check's fault, the count of records, and streams that fail.

use crate::failing_streams::{read_until_each_byte, write_until_each_call};
use rubis_audit::run_audit;
use rubis_engine::Count;
use std::test::Fail;

// The smallest log with a fault of each kind, and one that agrees; after `> ` its verdict.
const LOGS: [&str; 10] = [
    "site,0\nmsg,1,0,1,1,0:0,user,ann\nsite,1\nmsg,1,0,1,1,0:0,user,bob\n> audit,Clash,2,1\n",
    "site,0\nmsg,1,0,2,2,1:0,user,bob\n> audit,Order,1,1\n",
    "site,0\nmsg,1,0,1,1,0:0,user,ann\nsite,1\nmsg,1,1,1,1,0:0,user,bob\n> audit,RedGap,2,1\n",
    "site,0\nmsg,1,0,1,0,0:0,item,0.9,lamp,7,1,100,0\n> audit,Refers,1,1\n",
    "site,0\nmsg,1,0,1,1,0:0,user,ann\nmsg,1,0,2,2,1:0,user,ann\n> audit,Nick,1,2\n",
    "site,0\nmsg,1,0,1,1,0:0,user,ann\nmsg,1,0,2,0,1:0,item,0.1,cup,9,3,50,80\nmsg,1,0,3,2,2:0,buy,0.2,0.1,5\n> audit,Stock,1,3\n",
    "site,0\nmsg,1,0,1,1,0:0,user,ann\nmsg,1,0,2,0,1:0,item,0.1,cup,9,3,50,80\nmsg,1,0,3,2,2:0,bid,0.2,0.1,60\nmsg,1,0,4,3,3:0,close,0.2,9,none\n> audit,Winner,1,4\n",
    "site,0\nmsg,1,0,1,1,0:0,user,ann\nrow,user,0.1,ann,0,0,1,0\n> audit,Rows,1,0\n",
    "site,0\nmsg,1,0,1,1,0:0,user,ann\nrow,user,0.1,ann,0,0,0,0\n> audit,Agree\n",
    "site,2\nsite,0\n> audit,BadRecord,1\n",
];

#[test]
fn each_check_finds_its_fault(rt: HostRuntime) -> Result<(), Fail> {
    for row in LOGS {
        let (log, verdict) = row.split_once("> ").ok_or("no verdict")?;
        let mut out = Vec::new(rt.alloc());
        let end = run_audit(rt.alloc(), log.as_bytes(), &mut out, 2);
        assert!(rt; end.is_ok(), "{row}");
        assert!(rt; out.as_slice() == verdict.as_bytes(), "{row}");
    }
    Ok(())
}

#[test]
fn counts_the_records_that_it_reads(rt: HostRuntime) {
    let mut out = Vec::new(rt.alloc());
    let text = b"site,0\nsite,1\nrow\nmsg\nsite,0\n".as_slice();
    let end = run_audit(rt.alloc(), text, &mut out, 2);
    assert!(rt; end == Ok(Count { records: 4 }));
    assert!(rt; out.as_slice() == b"audit,BadRecord,4\n".as_slice());
}

// A log of a sale whose close names no winner, though there is a bid.
const SALE: &[u8] =
    b"site,0\nmsg,1,0,1,1,0:0,user,ann\nmsg,1,0,2,2,1:0,user,bob\nmsg,1,0,3,0,2:0,item,0.1,cup,9,3,50,80\n\
msg,1,0,4,3,3:0,bid,0.3,0.2,60\nmsg,1,0,5,4,4:0,close,0.3,9,none\n";

const SALE_AUDITED: &[u8] = b"audit,Winner,1,5\n";

#[test]
fn a_failing_reader(rt: HostRuntime) {
    read_until_each_byte(
        &rt,
        SALE,
        b"",
        0,
        b"",
        |reader, out| run_audit(rt.alloc(), reader, out, 2),
    );
}

#[test]
fn a_failing_writer(rt: HostRuntime) {
    write_until_each_call(
        &rt,
        SALE_AUDITED,
        |writer| run_audit(rt.alloc(), SALE, writer, 2),
    );
}
