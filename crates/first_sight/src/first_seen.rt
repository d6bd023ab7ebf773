//! A table in the order of first sight.

use indexmap::IndexMap;
use std::alloc::{AllocError, Global};
use std::hash::Hash;
use std::marker::Model;

/// A value for each key, in the order in which the keys were first seen. A contract sees the list of the keys, each
/// with its value. A key is found by its hash.
#[derive(Debug, Drop)]
pub struct FirstSeen<K: Eq + Hash, V> {
    pub(crate) entries: IndexMap<K, V>,
}

impl<K: Eq + Hash, V> Model for FirstSeen<K, V> {
    ghost use Rattle.std.specs.Prelude.{List};

    ghost Value = { List (K × V) };

    ghost view = { λ s. s.entries.entries };
}

impl<K: Eq + Hash, V> FirstSeen<K, V> {
    ghost use Rattle.std.specs.Prelude.{◌≡◌, []};
    ghost use Rattle.std.specs.Map.{keys_of, values_of};
    ghost use Rattle.first_sight.specs.FirstSight.{place_of};

    /// A table without keys. Allocates nothing.
    pub fn new(alloc: Global) -> Self
        ensures { result ≡ [] }
    {
        FirstSeen {
            entries: IndexMap::new(alloc),
        }
    }

    /// The keys, in the order of first sight.
    pub fn keys(&self) -> &[K]
        ensures { result.now ≡ keys_of self.now }
    {
        self.entries.keys().as_slice()
    }

    /// The value of each key, in the same order.
    pub fn values(&self) -> &[V]
        ensures { result.now ≡ values_of self.now }
    {
        self.entries.values().as_slice()
    }

    /// The place of a key, counted from 0. For a key that wasn't seen it is the place after the last.
    #[tactic(auto, using(crate::proofs::Places::behind_all))]
    pub fn place(&self, key: &K) -> usize
        ensures { result ≡ place_of K.eq (keys_of self.now) key.now }
    {
        match self.entries.get_index_of(key) {
            Some(place) => place,
            None => self.entries.len(),
        }
    }
}

impl<K: Eq + Hash + Drop, V: Copy + Drop> FirstSeen<K, V> {
    ghost use Rattle.std.specs.Prelude.{◌≡◌, Some, None, IsOk, IfOk, OnOk, OnErr, length, position};
    ghost use Rattle.std.specs.Map.{keys_of};
    ghost use Rattle.std.specs.Option.{option_map};
    ghost use Rattle.first_sight.specs.FirstSight.{belonging, noted, place_of, seen_with};

    /// The place of a key that was seen, counted from 0, and the value of the key.
    pub fn find(&self, key: &K) -> Option<(usize, V)>
        ensures place { option_map (λ found. found.0) result ≡ position (K.eq key.now) (keys_of self.now) }
        ensures value { option_map (λ found. found.1) result ≡ belonging K.eq self.now key.now }
    {
        let (place, _, value) = self.entries.get_full(key)?;
        Some((place, *value))
    }

    /// Gives this value to a key that was seen at `place`: as [`FirstSeen::note`] does, but without looking for the key
    /// again.
    pub fn renew(&mut self, key: &K, place: usize, value: V)
        requires place { position (K.eq key.now) (keys_of self.old) ≡ Some place }
        ensures noted { self.new ≡ noted K.eq self.old key.now value }
    {
        let (_, belonging) = self.entries.pair_mut(place);
        *belonging = value;
    }

    /// Gives this value to a key, and returns the key's place, counted from 0. A key that was seen keeps its place, and
    /// a new one goes last; if there is no memory for it, nothing changes.
    #[tactic(auto, using(crate::proofs::Noting::only_new))]
    pub fn note(&mut self, key: K, value: V) -> Result<usize, AllocError>
        ensures noted { OnOk result (self.new ≡ noted K.eq self.old key value) }
        ensures keys { OnOk result (keys_of self.new ≡ seen_with K.eq (keys_of self.old) key) }
        ensures place { IfOk result (λ place. place ≡ place_of K.eq (keys_of self.old) key) }
        // Only a new key needs memory.
        ensures stays { OnErr result (self.new ≡ self.old) }
        ensures absent { OnErr result (belonging K.eq self.old key ≡ None) }
        ensures known { length (seen_with K.eq (keys_of self.old) key) ≡ length (keys_of self.old) → IsOk result }
    {
        let (place, _) = self.entries.insert_full(key, value)?;
        Ok(place)
    }
}
