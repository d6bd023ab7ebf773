//! How the reading of captures and their writing are related.
ghost use Rattle.std.specs.Prelude.{◌≡◌, ◌++◌, ℕ, List, Ok, Some, map};
ghost use Rattle.std.specs.List.{flat_map};
ghost use Rattle.pcapng_io.specs.declared.item.NgItem.{NgItem};
ghost use Rattle.pcapng_io.specs.declared.place.Place.{Place};
ghost use Rattle.pcapng_io.specs.Blocks.{blocks_of, next_of};
ghost use Rattle.pcapng_io.specs.Written.{StandInARow, Stands, as_written, item_bytes, with_items};

/// What is written is read again, item by item, whatever follows it: packets are the same, with their frames, options,
/// interfaces and ticks; interfaces and section headers are the same but for what is written anew in them; and every
/// other block is the same.
pub fn written_is_read()
    ensures one { (growth : ℕ) (place now : Place) (item : NgItem) (tail : List ℕ) → Stands place item now →
        next_of place (item_bytes growth item ++ tail) ≡ Ok (Some (as_written growth item, now, tail)) }
    ensures all { (growth : ℕ) (place now : Place) (items : List NgItem) (tail : List ℕ) → StandInARow place items now →
        blocks_of place (flat_map (item_bytes growth) items ++ tail) ≡ with_items (map (as_written growth) items) (blocks_of now tail) }
{}
