//! What is left of a frame without its fields.

use chain_walk::Fixed;
use packet_fields::{Field, Outline};
use std::alloc::{AllocError, Global};
use std::marker::Model;

/// A frame with its own outline. The bytes of its fields have no meaning.
#[derive(Drop)]
pub(crate) struct Rest {
    bytes: Vec<u8>,
    outline: Outline,
}

impl Model for Rest {
    ghost use Rattle.std.specs.Prelude.{◌≡◌, List, ℕ};
    ghost use Rattle.packet_fields.specs.Outlines.{outline_of};

    ghost Value = { List ℕ };

    ghost view = { λ r. r.bytes.items };

    ghost invariant = { λ r. r.outline ≡ outline_of r.bytes.items };
}

impl Rest {
    ghost use Rattle.std.specs.Prelude.{◌≡◌, ◌≢◌, OnOk, IfSome, IsTrue, length};
    ghost use Rattle.std.specs.Option.{option_copied};
    ghost use Rattle.packet_fields.specs.Fields.{value, IsLengthOf};
    ghost use Rattle.packet_fields.specs.Writing.{put as put_in, rest_of, Fits};
    ghost use Rattle.chain_walk.specs.Shown.{fixed_of};
    ghost use Rattle.packet_fields.specs.declared.field.Field.{Field};

    pub(crate) fn new(bytes: Vec<u8>) -> Self
        ensures { result ≡ bytes.items }
    {
        let outline = Outline::of(&bytes);
        Rest { bytes, outline }
    }

    /// The fixed values of the frame, which was captured at `time`, in nanoseconds.
    pub(crate) fn fixed(&self, time: u64) -> Fixed
        ensures { result ≡ fixed_of time self.now }
    {
        Fixed {
            time,
            ether_type: self.outline.ether_type(&self.bytes),
            proto: self.outline.protocol(&self.bytes),
            ip_len: self.outline.total_len(&self.bytes),
            tcp_flags: self.outline.control_bits(&self.bytes),
        }
    }

    /// The bytes in a field's place.
    #[inline(always)]
    pub(crate) fn get(&self, field: Field) -> Option<&[u8]>
        ensures value { option_copied result ≡ value field self.now }
        ensures length { IfSome result (λ bytes. IsLengthOf field (length bytes.now)) }
    {
        self.outline.get(field, &self.bytes)
    }

    /// Puts these bytes into a field's place.
    pub(crate) fn put(
        &mut self,
        alloc: Global,
        field: Field,
        bytes: &[u8],
    ) -> Result<(), AllocError>
        requires { Fits field bytes.now self.old }
        ensures { OnOk result (self.new ≡ put_in field bytes.now self.old) }
    {
        match field {
            Field::Tag => self.put_tags(alloc, bytes),
            _ => {
                self.put_value(field, bytes);
                Ok(())
            }
        }
    }

    /// Puts the tags into their place. Tags that stay the same cost no allocation.
    fn put_tags(&mut self, alloc: Global, list: &[u8]) -> Result<(), AllocError>
        requires { Fits Field.Tag list.now self.old }
        ensures { OnOk result (self.new ≡ put_in Field.Tag list.now self.old) }
    {
        if self.has_tags(list) {
            return Ok(());
        }
        let frame = packet_fields::with_tags(alloc, list, &self.bytes)?;
        *self = Rest::new(frame.into_bytes());
        Ok(())
    }

    fn has_tags(&self, list: &[u8]) -> bool
        ensures { IsTrue result → value Field.Tag self.now ≡ Some list.now }
    {
        match self.get(Field::Tag) {
            Some(own) => own == list,
            None => false,
        }
    }

    /// Puts these bytes into the place of a field other than the tags.
    pub(crate) fn put_value(&mut self, field: Field, bytes: &[u8])
        requires not_tag { field ≢ Field.Tag }
        requires fits { Fits field bytes.now self.old }
        ensures whole { self.new ≡ put_in field bytes.now self.old }
        ensures written { value field self.new ≡ Some bytes.now }
        ensures others { (g : Field) → field ≢ g → value g self.new ≡ value g self.old }
        ensures rest { rest_of self.new ≡ rest_of self.old }
    {
        self.outline.put(field, bytes, &mut self.bytes);
    }

    pub(crate) fn allocator(&self) -> Global {
        *self.bytes.allocator()
    }

    pub(crate) fn into_bytes(self) -> Vec<u8>
        ensures { result.items ≡ self }
    {
        let Rest { bytes, outline: _ } = self;
        bytes
    }
}
