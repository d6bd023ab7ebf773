//! A table in the order of first sight whose values are handed on without a copy.

use first_sight::FirstSeen;
use std::alloc::{AllocError, Global};
use std::hash::Hash;
use std::marker::Model;

/// A value for each key, in the order in which the keys were first seen. A contract sees the list of the keys, each
/// with its value.
///
/// The values are a list of their own, which is all that is left once no key is looked for any more.
#[derive(Drop)]
pub(crate) struct ColumnTable<K: Eq + Hash, V> {
    keys: FirstSeen<K, ()>,
    values: Vec<V>,
}

impl<K: Eq + Hash, V> Model for ColumnTable<K, V> {
    ghost use Rattle.std.specs.Prelude.{List};
    ghost use Rattle.std.specs.List.{zip};
    ghost use Rattle.std.specs.Map.{keys_of};
    ghost use Rattle.flow_shards.specs.TwoColumns.{AreColumns};

    ghost Value = { List (K × V) };

    ghost view = { λ t. zip (keys_of t.keys) t.values.items };

    ghost invariant = { λ t. AreColumns K.eq (keys_of t.keys) t.values.items };
}

impl<K: Eq + Hash, V> ColumnTable<K, V> {
    ghost use Rattle.std.specs.Prelude.{◌≡◌, []};
    ghost use Rattle.std.specs.Map.{values_of};

    /// A table without keys. Allocates nothing.
    pub(crate) fn new(alloc: Global) -> Self
        ensures { result ≡ [] }
    {
        ColumnTable {
            keys: FirstSeen::new(alloc),
            values: Vec::new(alloc),
        }
    }

    /// The value of each key, in the order of first sight.
    pub(crate) fn values(&self) -> &[V]
        ensures { result.now ≡ values_of self.now }
    {
        self.values.as_slice()
    }
}

impl<K: Eq + Hash + Drop, V: Copy + Drop> ColumnTable<K, V> {
    ghost use Rattle.std.specs.Prelude.{◌≡◌, None, Some, OnOk, position};
    ghost use Rattle.std.specs.Map.{keys_of, values_of};
    ghost use Rattle.std.specs.Option.{option_map};
    ghost use Rattle.first_sight.specs.FirstSight.{belonging, noted};

    /// The place of a key that was seen, counted from 0, and the value of the key.
    pub(crate) fn find(&self, key: &K) -> Option<(usize, V)>
        ensures place { option_map (λ found. found.0) result ≡ position (K.eq key.now) (keys_of self.now) }
        ensures value { option_map (λ found. found.1) result ≡ belonging K.eq self.now key.now }
    {
        let (place, _) = self.keys.find(key)?;
        Some((place, self.values[place]))
    }

    /// Gives this value to a key that was seen at `place`.
    pub(crate) fn renew(&mut self, key: &K, place: usize, value: V)
        requires { position (K.eq key.now) (keys_of self.old) ≡ Some place }
        ensures { self.new ≡ noted K.eq self.old key.now value }
    {
        self.values[place] = value;
    }

    /// Puts a key that wasn't seen last, with its value. If there is no memory for it, nothing changes.
    pub(crate) fn push(&mut self, key: K, value: V) -> Result<(), AllocError>
        requires { belonging K.eq self.old key ≡ None }
        ensures pushed { OnOk result (self.new ≡ noted K.eq self.old key value) }
    {
        self.values.reserve(1)?;
        self.keys.note(key, ())?;
        self.values.push_reserved(value);
        Ok(())
    }

    /// The values alone, in the order of first sight. The memory of the keys is freed.
    pub(crate) fn into_values(self) -> Vec<V>
        ensures { result.items ≡ values_of self }
    {
        let ColumnTable { keys, values } = self;
        drop(keys);
        values
    }
}
