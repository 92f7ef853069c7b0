//! Tests of the widener: each record as it is read, and streams that fail.

use crate::failing_streams::{read_until_each_byte, write_until_each_call};
use rubis_audit::run_widen;
use rubis_engine::Count;

const LOG: &[u8] = b"site,0\nmsg,1,0,1,1,0:0,user,ann\nrow,user,0.1,ann,0,0,0,0\n";

// The same for four sites.
const WIDENED: &[u8] = b"site,0\nmsg,1,0,1,1,0:0:0:0,user,ann\nrow,user,0.1,ann,0,0,0,0\n";

#[test]
fn each_record_is_widened(rt: HostRuntime) {
    let mut out = Vec::new(rt.alloc());
    let end = run_widen(rt.alloc(), LOG, &mut out, 2, 4);
    assert!(rt; end == Ok(Count { records: 3 }));
    assert!(rt; out.as_slice() == WIDENED);
}

#[test]
fn a_message_before_any_site_is_a_bad_record(rt: HostRuntime) {
    let mut out = Vec::new(rt.alloc());
    let text = b"msg,1,0,1,1,0:0,user,ann\nsite,0\n".as_slice();
    let end = run_widen(rt.alloc(), text, &mut out, 2, 16);
    assert!(rt; end == Ok(Count { records: 1 }));
    assert!(rt; out.as_slice() == b"widen,BadRecord,1\n".as_slice());
}

#[test]
fn a_failing_reader(rt: HostRuntime) {
    read_until_each_byte(
        &rt,
        LOG,
        WIDENED,
        0,
        b"",
        |reader, out| run_widen(rt.alloc(), reader, out, 2, 4),
    );
}

#[test]
fn a_failing_writer(rt: HostRuntime) {
    write_until_each_call(
        &rt,
        WIDENED,
        |writer| run_widen(rt.alloc(), LOG, writer, 2, 4),
    );
}
