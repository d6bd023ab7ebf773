// A desk over files: what the files hold, and what is refused.
ghost use Rattle.std.specs.Prelude.{◌≡◌, ◌≢◌, IsSome};
ghost use Rattle.nfp_outside.specs.declared.slot.Slot.{Slot};

use crate::plenty::had;
use file_desk::{FileDesk, Host, Identity, OutputFile, Stream, System};
use nfp_outside::{Desk, DeskFault, Slot, write_whole};
use std::alloc::Global;
use std::io::Write;
use std::{fs, io};

const HELD: &[u8] = b"what it held";

const LINE: &[u8] = b"a line of the report\n";

// More than a desk gathers.
static LONG: [u8; 70_000] = [7; 70_000];

/// The files of a system that take three bytes in a call. What is printed goes nowhere.
#[derive(Drop)]
struct Slow<S> {
    system: S,
}

#[derive(Drop)]
struct SlowFile<F> {
    file: F,
}

impl<S: System> System for Slow<S> {
    type Input = S::Input;

    type Output = SlowFile<S::Output>;

    fn open_input(&self, name: &str) -> io::Result<S::Input> {
        self.system.open_input(name)
    }

    fn open_output(&self, name: &str) -> io::Result<SlowFile<S::Output>> {
        match self.system.open_output(name) {
            Ok(file) => Ok(SlowFile { file }),
            Err(error) => Err(error),
        }
    }

    fn remove(&self, name: &str) -> io::Result<()> {
        self.system.remove(name)
    }

    fn stream_identity(&self, stream: Stream) -> Option<Identity> {
        self.system.stream_identity(stream)
    }

    fn print(&self, bytes: &[u8]) -> io::Result<usize> {
        Ok(bytes.len())
    }

    fn alloc(&self) -> Global {
        self.system.alloc()
    }
}

impl<F: Write> Write for SlowFile<F> {
    fn write(&mut self, bytes: &[u8]) -> io::Result<usize> {
        if bytes.len() > 3 {
            self.file.write(&bytes[..3])
        } else {
            self.file.write(bytes)
        }
    }

    fn flush(&mut self) -> io::Result<()> {
        self.file.flush()
    }
}

impl<F: OutputFile> OutputFile for SlowFile<F> {
    ghost known_as = { λ f. F.known_as f.file };

    ghost on_disk = { λ f. F.on_disk f.file };

    fn truncate(&mut self) -> io::Result<()> {
        self.file.truncate()
    }

    fn sync(&mut self) -> io::Result<()> {
        self.file.sync()
    }

    fn identity(&self) -> Option<Identity> {
        self.file.identity()
    }

    fn is_new(&self) -> bool {
        self.file.is_new()
    }

    fn lock(&self) -> bool {
        self.file.lock()
    }
}

// Puts more into Out than a desk gathers. The first call takes three bytes, and says so.
fn puts_slowly<D: Desk>(desk: &mut D) -> bool
    requires attached { IsSome (D.slots desk.old Slot.Out).name }
    ensures others { (s : Slot) → s ≢ Slot.Out → D.slots desk.new s ≡ D.slots desk.old s }
{
    let first = desk.write(Slot::Out, &LONG);
    let rest = write_whole(desk, Slot::Out, &LONG[3..]);
    first == Ok(3) && rest == Ok(())
}

#[test]
fn a_file_that_takes_a_few_bytes_gets_them_all(rt: HostRuntime) {
    let (out, report) = ("a_slow_out", "a_slow_report");
    let system = Host::new(had(&rt, rt.clone()));
    let mut desk = FileDesk::new(Slow { system });
    had(&rt, desk.attach(Slot::Out, out));
    had(&rt, desk.attach(Slot::Report, report));
    assert_eq!(rt; write_whole(&mut desk, Slot::Report, LINE), Ok(()));
    assert!(rt; puts_slowly(&mut desk));
    // Once a line is printed, all that was put is in the files.
    assert_eq!(rt; desk.write(Slot::Note, b"done"), Ok(4));
    assert!(rt; had(&rt, fs::read(&rt, out)).as_slice() == LONG.as_slice());
    assert!(rt; had(&rt, fs::read(&rt, report)).as_slice() == LINE);
    assert_eq!(rt; desk.unwritten(), None);
    had(&rt, fs::remove_file(&rt, out));
    had(&rt, fs::remove_file(&rt, report));
}

#[test]
fn a_read_that_is_refused_is_no_end(rt: HostRuntime) {
    let mut desk = FileDesk::new(Host::new(had(&rt, rt.clone())));
    let mut buffer = [0u8; 8];
    // A folder is opened, and refuses to be read.
    had(&rt, desk.attach(Slot::Policy, "."));
    assert_eq!(rt;
        desk.read(Slot::Policy, &mut buffer),
        Err(DeskFault::Failed)
    );
}

#[test]
fn out_stays_as_it_was_until_report_is_open(rt: HostRuntime) {
    let out = "an_old_out";
    had(&rt, fs::write(&rt, out, HELD));
    let mut desk = FileDesk::new(Host::new(had(&rt, rt.clone())));
    had(&rt, desk.attach(Slot::Out, out));
    let refused = desk.attach(Slot::Report, "no_such_folder/report");
    assert_eq!(rt; refused, Err(DeskFault::Failed));
    assert_eq!(rt; desk.hand_on(), None);
    assert!(rt; had(&rt, fs::read(&rt, out)).as_slice() == HELD);
    had(&rt, fs::remove_file(&rt, out));
}

#[test]
fn a_new_out_is_removed_if_report_is_refused(rt: HostRuntime) {
    let out = "a_new_out";
    let mut desk = FileDesk::new(Host::new(had(&rt, rt.clone())));
    had(&rt, desk.attach(Slot::Out, out));
    // Another name of the same file.
    let refused = desk.attach(Slot::Report, "./a_new_out");
    assert_eq!(rt; refused, Err(DeskFault::Failed));
    assert_eq!(rt; fs::exists(&rt, out).ok(), Some(false));
}

#[test]
fn a_file_that_is_read_or_written_elsewhere_is_not_written(rt: HostRuntime) {
    let (capture, out) = ("a_capture", "a_locked_out");
    had(&rt, fs::write(&rt, capture, HELD));
    let mut desk = FileDesk::new(Host::new(had(&rt, rt.clone())));
    had(&rt, desk.attach(Slot::Capture, capture));
    // Another name of the same file.
    let refused = desk.attach(Slot::Out, "./a_capture");
    assert_eq!(rt; refused, Err(DeskFault::Failed));
    assert!(rt; had(&rt, fs::read(&rt, capture)).as_slice() == HELD);
    had(&rt, desk.attach(Slot::Out, out));
    let mut second = FileDesk::new(Host::new(had(&rt, rt.clone())));
    let refused = second.attach(Slot::Out, out);
    assert_eq!(rt; refused, Err(DeskFault::Failed));
    had(&rt, fs::remove_file(&rt, out));
    had(&rt, fs::remove_file(&rt, capture));
}
