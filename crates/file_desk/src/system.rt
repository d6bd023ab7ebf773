// What the desk asks of the operating system. That the system keeps to these clauses is trusted.
ghost use Rattle.std.specs.Prelude.{◌≡◌, OnOk, OnErr, Bool, true, Option};
ghost use Rattle.std.specs.Io.{WritesAtMost};
ghost use Rattle.std.specs.Io.KnownBytes.{Keeps};
ghost use Rattle.file_desk.specs.declared.identity.Identity.{Identity};
ghost use Rattle.file_desk.specs.Accounts.{Empties};

use crate::identity::Identity;
use std::alloc::Global;
use std::io;
use std::io::{Read, Write};

/// The calls of the operating system.
pub trait System {
    /// A file that is open to be read.
    type Input: InputFile + Drop;

    /// A file that is open to be written.
    type Output: OutputFile + Drop;

    /// Opens a file to read.
    fn open_input(&self, name: &str) -> io::Result<Self::Input>;

    /// Opens a file to write, and creates it if there is none. Its content stays.
    fn open_output(&self, name: &str) -> io::Result<Self::Output>;

    /// Removes the name of a file.
    fn remove(&self, name: &str) -> io::Result<()>;

    /// The identity of the regular file to which a stream of the program leads. `None` if it leads to no such file, or
    /// the system doesn't show it.
    fn stream_identity(&self, stream: Stream) -> Option<Identity>;

    /// Writes the first bytes of a piece to standard output, and returns the number of them.
    fn print(&self, bytes: &[u8]) -> io::Result<usize>
        ensures { WritesAtMost result bytes.now };

    /// The allocator.
    fn alloc(&self) -> Global;
}

/// A file that is open to be read. `remaining` are the bytes that are left in it, if it shows them.
pub trait InputFile: Read {
    /// The identity of the file, if the system showed it.
    ghost known_as: { Self → Option Identity };

    /// The identity of the file, if the system showed it.
    fn identity(&self) -> Option<Identity>
        ensures { result ≡ known_as self.now };
}

/// A file that is open to be written. `contents` are the bytes that it holds, if it shows them.
pub trait OutputFile: Write {
    /// The identity of the file, if the system showed it.
    ghost known_as: { Self → Option Identity };

    /// Whether all that the file holds was brought to the disk.
    ghost on_disk: { Self → Bool };

    /// Makes the file hold nothing. Something that is no file on a disk, such as a pipe, holds nothing anyway.
    fn truncate(&mut self) -> io::Result<()>
        ensures emptied { OnOk result (Empties (Self.contents self.old) (Self.contents self.new)) }
        ensures kept { OnErr result (Keeps (Self.contents self.old) (Self.contents self.new)) }
        ensures same_file { known_as self.new ≡ known_as self.old };

    /// Brings what the file holds to the disk. Something that is no regular file, such as a pipe or a device, holds
    /// nothing that has to be brought there.
    fn sync(&mut self) -> io::Result<()>
        ensures synced { OnOk result (on_disk self.new ≡ true) }
        ensures kept { Keeps (Self.contents self.old) (Self.contents self.new) }
        ensures same_file { known_as self.new ≡ known_as self.old };

    /// The identity of the file, if the system showed it.
    fn identity(&self) -> Option<Identity>
        ensures { result ≡ known_as self.now };

    /// Whether the file was created when it was opened.
    fn is_new(&self) -> bool;

    /// Locks the file for as long as it is open. Returns false if another run has locked it. Where there are no locks,
    /// nothing is locked.
    fn lock(&self) -> bool;
}

/// A stream of the program that is open from its start, and is written.
#[derive(Clone, Copy, Debug)]
pub enum Stream {
    /// Standard output.
    Output,
    /// Standard error.
    Error,
}
