//! A value that two threads read comes back to its owner.

use crate::plenty::had;
use part_lease::{Reader, share};
use std::sync::Wait;
use std::thread;

/// A value that can't be copied.
#[derive(Drop)]
struct Parcel {
    bytes: Vec<u8>,
}

/// Do ten readings in a row all show these bytes, if there is a reader?
fn reads_ten_times<R: Wait>(rt: &R, reader: Option<Reader<Parcel>>, bytes: &[u8]) -> bool {
    let Some(mut reader) = reader else {
        return false;
    };
    let mut same = true;
    for _i in 0..10 {
        let shown = reader.read(rt);
        same = same && shown.part().bytes.as_slice() == bytes;
        reader = shown.done();
    }
    same
}

#[test]
fn two_threads_read_one_value_which_comes_back(rt: HostRuntime) {
    let bytes = had(&rt, Vec::from_array(rt.alloc(), [7u8, 9]));
    let (owner, mut readers) = had(&rt, share(rt.alloc(), Parcel { bytes }, 2));
    let (first, second) = (readers.pop(), readers.pop());
    let (one, other) = thread::join(
        &rt,
        || reads_ten_times(&rt, first, b"\x07\x09"),
        || reads_ten_times(&rt, second, b"\x07\x09"),
    );
    assert!(rt; one && other && owner.take(&rt).bytes.as_slice() == [7, 9].as_slice());
}
