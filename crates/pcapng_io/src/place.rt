//! A place between the blocks of a capture.
use capture_bytes::Endian;
use item_list::Items;
use std::alloc::Global;

/// What is known of a capture before a block: the order of the numbers of its section, the number of ticks in a second
/// of each interface of that section, and the number of blocks and packets so far.
#[derive(Drop)]
pub struct Place {
    /// The order of the section's numbers.
    pub order: Endian,
    /// The ticks in a second, of each interface of the section.
    pub units: Items<u64>,
    /// The blocks before.
    pub blocks: u64,
    /// The packets before.
    pub packets: u32,
}

impl Place {
    ghost use Rattle.std.specs.Prelude.{◌≡◌};
    ghost use Rattle.pcapng_io.specs.Blocks.{start};

    /// Before the first block. It allocates nothing.
    pub fn start(alloc: Global) -> Place
        ensures { result ≡ start }
    {
        Place {
            order: Endian::Big,
            units: Items::new(Vec::new(alloc)),
            blocks: 0,
            packets: 0,
        }
    }
}
