//! A table as lines of text.

use crate::first_seen::FirstSeen;
use std::alloc::{AllocError, Global};
use std::hash::Hash;

/// Prints a table as lines, one for each key.
pub trait EntryLines<K, V> {
    ghost use Rattle.std.specs.Prelude.{◌≡◌, ◌<◌, ◌^◌, ◌++◌, ℕ, List, OnOk};

    /// The line of an entry, which is a key and its value, by its place, counted from 0.
    ghost line: { Self → ℕ → K × V → List ℕ };

    /// Appends the line of an entry, with its line feed. If memory runs out, the content of the text is unspecified.
    fn push_entry(
        &self,
        alloc: Global,
        text: &mut Vec<u8>,
        place: usize,
        key: &K,
        value: &V,
    ) -> Result<(), AllocError>
        requires { place < 2 ^ 63 }
        ensures { OnOk result (text.new.items ≡ text.old.items ++ line self.now place (key.now, value.now)) };
}

impl<K: Eq + Hash, V> FirstSeen<K, V> {
    ghost use Rattle.std.specs.Prelude.{◌≡◌, ◌<◌, ◌^◌, ◌++◌, [], take, length, slice_get, slice_index_or, Some, OnOk, OnErr};
    ghost use Rattle.std.specs.List.{flat_map};
    ghost use Rattle.first_sight.specs.FirstSight.{lines_by};
    ghost use Rattle.first_sight.specs.Lines.{rows_by};

    /// Appends the line of each key, in the order of first sight. If memory runs out, it appends nothing.
    pub fn push_lines<T: EntryLines<K, V>>(
        &self,
        teller: &T,
        out: &mut Vec<u8>,
    ) -> Result<(), AllocError>
        ensures lines { OnOk result (out.new.items ≡ out.old.items ++ lines_by (T.line teller.now) self.now) }
        ensures stays { OnErr result (out.new.items ≡ out.old.items) }
    {
        let before = out.len();
        let pushed = self.push_each(teller, out);
        if pushed.is_err() {
            out.truncate(before);
        }
        pushed
    }

    /// The number of its lines: one for each key.
    #[tactic(auto, using(crate::proofs::Telling::rows_told, crate::proofs::Telling::rows_counted))]
    pub fn line_count<T: EntryLines<K, V>>(&self, teller: &T) -> usize
        ensures count { result ≡ length (rows_by (T.line teller.now) self.now) }
        ensures told { flat_map (λ row. row) (rows_by (T.line teller.now) self.now) ≡ lines_by (T.line teller.now) self.now }
    {
        self.entries.len()
    }

    /// Appends the line of the key at a place, counted from 0. If memory runs out, it appends nothing.
    pub fn push_line<T: EntryLines<K, V>>(
        &self,
        teller: &T,
        place: usize,
        out: &mut Vec<u8>,
    ) -> Result<(), AllocError>
        requires inside { place < length (rows_by (T.line teller.now) self.now) }
        ensures line { OnOk result (out.new.items ≡ out.old.items ++ slice_index_or (rows_by (T.line teller.now) self.now) place []) }
        ensures stays { OnErr result (out.new.items ≡ out.old.items) }
    {
        let alloc = *out.allocator();
        let (key, value) = self.entry(place);
        let mut line = Vec::new(alloc);
        teller.push_entry(alloc, &mut line, place, key, value)?;
        out.extend_from_slice(&line)
    }

    // The entry at a place. A place is below 2^63.
    fn entry(&self, place: usize) -> (&K, &V)
        requires inside { place < length self.now }
        ensures entry { slice_get self.now place ≡ Some (result.0.now, result.1.now) }
        ensures small { place < 2 ^ 63 }
    {
        match self.entries.as_slice().get_index(place) {
            Some(entry) => entry,
            None => unreachable!(),
        }
    }

    // If memory runs out, some of the lines may already be appended.
    #[tactic(auto, using(crate::proofs::Telling::begins, crate::proofs::Telling::goes_on, crate::proofs::Telling::ends, crate::proofs::Telling::kept))]
    fn push_each<T: EntryLines<K, V>>(
        &self,
        teller: &T,
        out: &mut Vec<u8>,
    ) -> Result<(), AllocError>
        ensures lines { OnOk result (out.new.items ≡ out.old.items ++ lines_by (T.line teller.now) self.now) }
        ensures kept { OnErr result (take (length out.old.items) out.new.items ≡ out.old.items) }
    {
        let alloc = *out.allocator();
        let mut line = Vec::new(alloc);
        'entries: for (place, (key, value)) in self.entries.iter().enumerate() {
            line.clear();
            teller.push_entry(alloc, &mut line, place, key, value)?;
            out.extend_from_slice(&line)?;
        }
        Ok(())
    }
}
