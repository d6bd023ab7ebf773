//! What decided: reports and traces, worked out by hand.

use crate::captures::Capture;
use crate::rows::{Row, compare};

const WORDS: &[&str] = &["p", "c", "r"];

const DENYING: &[u8] = b"\
nfp 1
chain main
fn fw firewall
rule deny src 10.0.0.9
rule deny dst 10.0.0.77
fn t hop
";

const DENIED_REPORT: &[u8] = b"\
nfp why 1
drop 2 main fw line 4
records 2 emitted 1 dropped 1
no chain took 0
chain main took 2
function main fw firewall saw 2 changed 0 dropped 1
  line 3 hits 1
  line 4 hits 1
  line 5 hits 0
function main t hop saw 1 changed 1 dropped 0
  line 6 hits 0
end
";

const COUNTING: &[u8] = b"\
nfp 1
chain main
fn mon monitor
fn fw firewall
rule deny src 10.0.0.9
order mon before fw
";

const COUNTED_REPORT: &[u8] = b"\
nfp why 1
drop 2 main fw line 5
records 3 emitted 2 dropped 1
no chain took 0
chain main took 3
function main mon monitor saw 3 changed 0 dropped 0
function main fw firewall saw 3 changed 0 dropped 1
  line 4 hits 2
  line 5 hits 1
end
";

const CUT_REPORT: &[u8] = b"\
nfp why 1
drop 2 main fw line 5
records 2 emitted 1 dropped 1
no chain took 0
chain main took 2
function main mon monitor saw 2 changed 0 dropped 0
function main fw firewall saw 2 changed 0 dropped 1
  line 4 hits 1
  line 5 hits 1
fault capture: cut record 3
";

// A firewall with a rule that decides and one that doesn't, and a hop.
const DENIED: Row<'static> = Row {
    words: WORDS,
    policy: DENYING,
    capture: Capture::Classic(&[1, 9]),
    outcome: "Done",
    report: DENIED_REPORT,
    note: b"done records 2 emitted 1 dropped 1\n",
};

const IN_BLOCKS: Row<'static> = Row {
    capture: Capture::Pcapng(&[1, 9]),
    ..DENIED
};

// A monitor before a firewall: no line of it can decide.
const COUNTED: Row<'static> = Row {
    policy: COUNTING,
    capture: Capture::Classic(&[1, 9, 1]),
    report: COUNTED_REPORT,
    note: b"done records 3 emitted 2 dropped 1\n",
    ..DENIED
};

#[test]
fn each_drop_has_its_line_and_each_line_its_hits(rt: HostRuntime) {
    compare(&rt, &[DENIED, IN_BLOCKS, COUNTED]);
}

const PASSED: Row<'static> = Row {
    words: &["p", "c", "r", "--record", "1"],
    note: b"record 1\nchain main\nfunction fw firewall passed line 3\nfunction t hop changed\n  ttl 64 63\nout\n",
    ..DENIED
};

const DROPPED: Row<'static> = Row {
    words: &["p", "c", "r", "--record", "2"],
    note: b"record 2\nchain main\nfunction fw firewall dropped line 4\ndropped fw\n",
    ..DENIED
};

const MISSING: Row<'static> = Row {
    words: &["p", "c", "r", "--record", "3"],
    note: b"no record 3\n",
    ..DENIED
};

#[test]
fn a_record_is_traced_function_by_function(rt: HostRuntime) {
    compare(&rt, &[PASSED, DROPPED, MISSING]);
}

// The third record is cut: the report is of the two before it.
const CUT: Row<'static> = Row {
    capture: Capture::Cut(&[1, 9, 1]),
    outcome: "Capture(CutRecord(3))",
    report: CUT_REPORT,
    note: b"capture: cut record 3\n",
    ..COUNTED
};

const CUT_IN_IT: Row<'static> = Row {
    words: &["p", "c", "r", "--record", "3"],
    ..CUT
};

const CUT_BEHIND_IT: Row<'static> = Row {
    words: &["p", "c", "r", "--record", "1"],
    note: b"record 1\nchain main\nfunction mon monitor passed\nfunction fw firewall passed line 4\nout\n",
    ..CUT
};

#[test]
fn a_fault_of_the_capture_takes_no_trace_before_it(rt: HostRuntime) {
    compare(&rt, &[CUT, CUT_IN_IT, CUT_BEHIND_IT]);
}

const RECORD_ZERO: Row<'static> = Row {
    words: &["p", "c", "r", "--record", "0"],
    outcome: "Usage(Number(Record))",
    report: b"",
    note: b"usage: number record\n",
    ..DENIED
};

#[test]
fn the_number_of_a_record_begins_at_one(rt: HostRuntime) {
    compare(&rt, &[RECORD_ZERO]);
}
