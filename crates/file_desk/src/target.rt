// A file to write, whose content stays until it is emptied or takes its first bytes.
ghost use Rattle.std.specs.Prelude.{◌≡◌, OnOk, OnErr, true, false};
ghost use Rattle.std.specs.Io.KnownBytes.{Keeps, IsAtEnd};
ghost use Rattle.file_desk.specs.Targets.{target_contents};

use crate::identity::Identity;
use crate::system::OutputFile;
use std::io;
use std::io::Write;

/// A file to write. Its `contents` are the bytes that were handed on to it, and not what it held when it was opened.
#[derive(Drop)]
pub struct Target<F> {
    file: F,
    is_emptied: bool,
}

impl<F: OutputFile + Drop> Target<F> {
    pub fn new(file: F) -> Self
        ensures file { result.file ≡ file }
        ensures as_it_was { result.is_emptied ≡ false }
    {
        Target {
            file,
            is_emptied: false,
        }
    }

    pub fn identity(&self) -> Option<Identity>
        ensures { result ≡ F.known_as self.now.file }
    {
        self.file.identity()
    }

    pub fn is_new(&self) -> bool {
        self.file.is_new()
    }

    pub fn lock(&self) -> bool {
        self.file.lock()
    }

    pub fn is_emptied(&self) -> bool
        ensures { result ≡ self.now.is_emptied }
    {
        self.is_emptied
    }

    /// Empties the file, once.
    pub fn empty(&mut self) -> io::Result<()>
        ensures emptied { OnOk result (self.new.is_emptied ≡ true) }
        ensures refused { OnErr result (self.new.is_emptied ≡ self.old.is_emptied) }
        ensures as_it_was { OnErr result (Keeps (F.contents self.old.file) (F.contents self.new.file)) }
        ensures nothing_held { OnOk result (self.old.is_emptied ≡ false → IsAtEnd (F.contents self.new.file)) }
        ensures same_file { F.known_as self.new.file ≡ F.known_as self.old.file }
        ensures handed_on { Keeps (target_contents F.contents self.old) (target_contents F.contents self.new) }
    {
        if !self.is_emptied {
            self.file.truncate()?;
            self.is_emptied = true;
        }
        Ok(())
    }

    /// Brings what the file holds to the disk.
    pub fn sync(&mut self) -> io::Result<()>
        ensures synced { OnOk result (F.on_disk self.new.file ≡ true) }
        ensures as_emptied { self.new.is_emptied ≡ self.old.is_emptied }
        ensures same_file { F.known_as self.new.file ≡ F.known_as self.old.file }
        ensures handed_on { Keeps (target_contents F.contents self.old) (target_contents F.contents self.new) }
    {
        self.file.sync()
    }
}

impl<F: OutputFile + Drop> Write for Target<F> {
    ghost contents = { target_contents F.contents };

    fn write(&mut self, bytes: &[u8]) -> io::Result<usize> {
        self.empty()?;
        self.file.write(bytes)
    }

    fn flush(&mut self) -> io::Result<()> {
        self.file.flush()
    }
}
