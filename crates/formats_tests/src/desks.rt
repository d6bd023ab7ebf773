// Whole texts through desks, with ample memory.
use crate::plenty::had;
use file_desk::{FileDesk, Host};
use nfp_outside::{
    Desk, FixedDesk, MemDesk, OutsideFault, Scales, Slot, Weight, read_all, write_whole,
};
use std::alloc::Global;
use std::fs;
use std::process::Abort;

const TEXT: &[u8] = b"abcdefgh";

const NAME: &str = "written_by_a_desk";

// The text, read from a desk with a limit of `max` bytes.
fn read_up_to(rt: &impl Abort, alloc: Global, max: usize) -> Result<Vec<u8>, OutsideFault> {
    let text = had(rt, TEXT.to_vec(alloc));
    let mut desk = FixedDesk::new(alloc, text, Vec::new(alloc), 3);
    had(rt, desk.attach(Slot::Policy, "policy"));
    read_all(alloc, &mut desk, Slot::Policy, max)
}

fn is_read(rt: &impl Abort, alloc: Global, max: usize) -> bool {
    match read_up_to(rt, alloc, max) {
        Ok(all) => all.as_slice() == TEXT,
        Err(_) => false,
    }
}

#[test]
fn a_slot_is_read_whole_up_to_the_limit(rt: HostRuntime) {
    let refused = read_up_to(&rt, rt.alloc(), 7).err();
    assert_eq!(rt; refused, Some(OutsideFault::TooLong));
    assert!(rt; is_read(&rt, rt.alloc(), 8) && is_read(&rt, rt.alloc(), 9));
}

// Writes the text into Note once more: are this the result and these the bytes in Note afterwards?
fn is_written(desk: &mut MemDesk, answer: Result<(), OutsideFault>, put: &[u8]) -> bool {
    let written = write_whole(desk, Slot::Note, TEXT);
    written == answer && desk.put(Slot::Note) == put
}

#[test]
fn a_write_ends_at_the_listed_call(rt: HostRuntime) {
    let alloc = rt.alloc();
    let fails = had(&rt, Vec::from_array(alloc, [(Slot::Note, 1)]));
    let mut desk = MemDesk::new(alloc, Vec::new(alloc), Vec::new(alloc), 3, fails);
    let refused = Err(OutsideFault::WriteFault(Slot::Note));
    assert!(rt; is_written(&mut desk, refused, b"abc"));
    assert!(rt; is_written(&mut desk, Ok(()), b"abcabcdefgh"));
}

#[test]
fn what_is_put_is_weighed(rt: HostRuntime) {
    let mut desk = Scales::new(rt.alloc());
    assert_eq!(rt; write_whole(&mut desk, Slot::Out, b"ab"), Ok(()));
    assert_eq!(rt; write_whole(&mut desk, Slot::Report, b"c"), Ok(()));
    assert_eq!(rt; write_whole(&mut desk, Slot::Out, b"c"), Ok(()));
    // 1 * 97 + 2 * 98 + 3 * 99
    assert_eq!(rt; desk.weight(Slot::Out), Weight { bytes: 3, sum: 590 });
    assert_eq!(rt; desk.weight(Slot::Report), Weight { bytes: 1, sum: 99 });
}

#[test]
fn a_written_file_reads_back_and_a_missing_one_is_refused(rt: HostRuntime) {
    let mut writer = FileDesk::new(Host::new(had(&rt, rt.clone())));
    had(&rt, writer.attach(Slot::Out, NAME));
    assert_eq!(rt; write_whole(&mut writer, Slot::Out, TEXT), Ok(()));
    assert_eq!(rt; write_whole(&mut writer, Slot::Out, b"end"), Ok(()));
    // What is written is gathered, and is in the file after `hand_on`.
    assert_eq!(rt; writer.hand_on(), None);
    let mut desk = FileDesk::new(Host::new(had(&rt, rt.clone())));
    assert!(rt; desk.attach(Slot::Capture, "no_such_file").is_err());
    had(&rt, desk.attach(Slot::Policy, NAME));
    let all = had(&rt, read_all(rt.alloc(), &mut desk, Slot::Policy, 11));
    assert!(rt; all.as_slice() == b"abcdefghend".as_slice());
    assert!(rt; fs::remove_file(&rt, NAME).is_ok());
}
