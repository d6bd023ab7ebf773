/// The order of the bytes in all numbers of a capture, or of a part of it.
#[derive(Clone, Copy, Debug, PartialEq, Eq)]
pub enum Endian {
    /// The highest byte comes first.
    Big,
    /// The lowest byte comes first.
    Little,
}
