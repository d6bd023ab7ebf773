// How two files are compared.

/// The identity of a file: its device, and its inode number there.
#[derive(Clone, Copy, Debug)]
pub struct Identity {
    /// The number of the device.
    pub device: u64,
    /// The inode number.
    pub number: u64,
}
