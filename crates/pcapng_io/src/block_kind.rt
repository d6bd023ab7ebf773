//! What a block is, by its type.

/// What a block is, by its type.
#[derive(Clone, Copy, Debug, PartialEq, Eq)]
pub enum BlockKind {
    /// A section header block, which begins a section.
    SectionHeader,
    /// An interface description block.
    InterfaceDescription,
    /// An enhanced packet block.
    EnhancedPacket,
    /// A packet block, which is obsolete, or a simple packet block; these are refused.
    Unread,
    /// Any other block; it is passed on unchanged.
    Other,
}
