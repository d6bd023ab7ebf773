// The calls of the operating system, over the files of a runtime.
ghost use Rattle.std.specs.Prelude.{◌≡◌};

use crate::identity::Identity;
use crate::system::{InputFile, OutputFile, Stream, System};
use std::alloc::Global;
use std::fs::{File, Metadata, OpenFile, OpenOptions, TryLockError};
use std::io::{ErrorKind, Read, Write};
use std::os::unix::fs::{FileTypeExt, MetadataExt};
use std::rt::Files;
use std::{fs, io};

/// The operating system as a runtime reaches it. Its files show no bytes.
#[derive(Drop)]
pub struct Host<R> {
    rt: R,
}

impl<R: Files + Print + AllocGlobal> Host<R> {
    /// The system of a runtime.
    pub fn new(rt: R) -> Self {
        Host { rt }
    }
}

/// A file that another run may lock.
pub trait Lockable {
    /// Tries to lock the file for as long as it is open.
    fn try_lock(&self) -> Result<(), TryLockError>;
}

impl Lockable for File {
    fn try_lock(&self) -> Result<(), TryLockError> {
        File::try_lock(self)
    }
}

/// A file of a runtime that is open to be read.
#[derive(Drop)]
pub struct HostInput<F> {
    file: F,
    identity: Option<Identity>,
}

/// A file of a runtime that is open to be written.
#[derive(Drop)]
pub struct HostOutput<F> {
    file: F,
    identity: Option<Identity>,
    is_new: bool,
    // Whether nothing was done to the file since it was brought to the disk.
    is_synced: bool,
}

impl<R: Files + Print + AllocGlobal> System for Host<R>
where
    R::File: Lockable,
{
    type Input = HostInput<R::File>;

    type Output = HostOutput<R::File>;

    fn open_input(&self, name: &str) -> io::Result<HostInput<R::File>> {
        let file = File::open(&self.rt, name)?;
        let identity = identity_of(&file);
        Ok(HostInput { file, identity })
    }

    fn open_output(&self, name: &str) -> io::Result<HostOutput<R::File>> {
        let (file, is_new) = open_or_create(&self.rt, name)?;
        let identity = identity_of(&file);
        Ok(HostOutput {
            file,
            identity,
            is_new,
            is_synced: false,
        })
    }

    fn remove(&self, name: &str) -> io::Result<()> {
        fs::remove_file(&self.rt, name)
    }

    fn stream_identity(&self, stream: Stream) -> Option<Identity> {
        match fs::metadata(&self.rt, path_of(stream)) {
            Ok(metadata) if metadata.is_file() => identity_in(&metadata),
            _ => None,
        }
    }

    fn print(&self, bytes: &[u8]) -> io::Result<usize> {
        io::writer(&self.rt).write(bytes)
    }

    fn alloc(&self) -> Global {
        self.rt.alloc()
    }
}

impl<F: Read> Read for HostInput<F> {
    fn read(&mut self, into: &mut [u8]) -> io::Result<usize> {
        self.file.read(into)
    }
}

impl<F: Read> InputFile for HostInput<F> {
    ghost known_as = { λ f. f.identity };

    fn identity(&self) -> Option<Identity> {
        self.identity
    }
}

impl<F: Write> Write for HostOutput<F> {
    fn write(&mut self, bytes: &[u8]) -> io::Result<usize> {
        self.is_synced = false;
        self.file.write(bytes)
    }

    fn flush(&mut self) -> io::Result<()> {
        self.file.flush()
    }
}

impl<F: Write + OpenFile + Lockable> OutputFile for HostOutput<F> {
    ghost known_as = { λ f. f.identity };

    ghost on_disk = { λ f. f.is_synced };

    // A file that is already empty is left alone: some file systems write everything to the disk before they close a file
    // that was emptied.
    fn truncate(&mut self) -> io::Result<()> {
        let metadata = self.file.metadata()?;
        if metadata.is_file() && metadata.len() > 0 {
            self.is_synced = false;
            self.file.set_len(0)?;
        }
        Ok(())
    }

    // The system refuses this for pipes and most devices.
    fn sync(&mut self) -> io::Result<()> {
        if !self.is_synced {
            if self.file.metadata()?.is_file() {
                self.file.sync_all()?;
            }
            self.is_synced = true;
        }
        Ok(())
    }

    fn identity(&self) -> Option<Identity> {
        self.identity
    }

    fn is_new(&self) -> bool {
        self.is_new
    }

    // Devices and pipes aren't locked, since several programs may write to them.
    fn lock(&self) -> bool {
        match self.file.metadata() {
            Ok(metadata) if metadata.is_file() => {
                !matches!(self.file.try_lock(), Err(TryLockError::WouldBlock))
            }
            _ => true,
        }
    }
}

// A file to write, and whether it was created. A name that leads to nothing, such as a link to a missing file, creates what it
// leads to, and that doesn't count as created here.
fn open_or_create<R: Files>(rt: &R, name: &str) -> io::Result<(R::File, bool)> {
    match OpenOptions::new().write(true).open(rt, name) {
        Err(error) if error.kind() == ErrorKind::NotFound => {}
        opened => return Ok((opened?, false)),
    }
    match OpenOptions::new()
        .write(true)
        .create_new(true)
        .open(rt, name)
    {
        Err(error) if error.kind() == ErrorKind::AlreadyExists => {}
        created => return Ok((created?, true)),
    }
    let file = OpenOptions::new().write(true).create(true).open(rt, name)?;
    Ok((file, false))
}

// The path at which the system shows the file to which a stream leads.
fn path_of(stream: Stream) -> &'static str {
    match stream {
        Stream::Output => "/proc/self/fd/1",
        Stream::Error => "/proc/self/fd/2",
    }
}

// A terminal and other character devices hold nothing that could be lost, so they have no identity.
fn identity_of(file: &impl OpenFile) -> Option<Identity> {
    match file.metadata() {
        Ok(metadata) if !metadata.file_type().is_char_device() => identity_in(&metadata),
        _ => None,
    }
}

fn identity_in(metadata: &Metadata) -> Option<Identity> {
    match metadata.ino() {
        0 => None,
        number => Some(Identity {
            device: metadata.dev(),
            number,
        }),
    }
}
