//! Sets of fields.

ghost use Rattle.std.specs.Prelude.{⊤, ◌≡◌, [], ◌∷◌, codes};
ghost use Rattle.action_profile.specs.FieldSets.{all_fields};

use bitflags::{Flag, Flags, bitflag_items};
use packet_fields::Field;

const FIELDS: [Field; 10] = [
    Field::LinkDst,
    Field::LinkSrc,
    Field::Tag,
    Field::Tos,
    Field::Ttl,
    Field::SrcIp,
    Field::DstIp,
    Field::SrcPort,
    Field::DstPort,
    Field::Payload,
];

/// Every field, in order.
pub fn all_fields() -> &'static [Field]
    ensures { result.now ≡ all_fields }
{
    &FIELDS
}

/// A set of fields: bit i is set for field i, in the order of [`Field`], both counted from 0.
///
/// Contracts name what is in it by `has` of `specs/FieldSets.antt`.
#[derive(Clone, Copy, Debug, PartialEq, Eq)]
pub struct FieldSet(u16);

bitflag_items! {
    impl FieldSet: u16 {
        const LINK_DST = 1 << 0;
        const LINK_SRC = 1 << 1;
        const TAG = 1 << 2;
        const TOS = 1 << 3;
        const TTL = 1 << 4;
        const SRC_IP = 1 << 5;
        const DST_IP = 1 << 6;
        const SRC_PORT = 1 << 7;
        const DST_PORT = 1 << 8;
        const PAYLOAD = 1 << 9;
    }
}

impl Flags for FieldSet {
    type Bits = u16;

    ghost exact = { ⊤ };

    ghost table = { (codes "LINK_DST", 1) ∷ (codes "LINK_SRC", 2) ∷ (codes "TAG", 4) ∷ (codes "TOS", 8) ∷ (codes "TTL", 16) ∷ (codes "SRC_IP", 32) ∷ (codes "DST_IP", 64) ∷ (codes "SRC_PORT", 128) ∷ (codes "DST_PORT", 256) ∷ (codes "PAYLOAD", 512) ∷ [] };

    ghost set_of = { λ s. s.0 };

    fn flags<'a>() -> &'a [Flag<FieldSet>] {
        FieldSet::FLAGS
    }

    fn bits(&self) -> u16 {
        self.0
    }

    fn from_bits_retain(bits: u16) -> FieldSet {
        FieldSet(bits)
    }
}

impl FieldSet {
    ghost use Rattle.std.specs.Prelude.{◌≡◌, ◌||◌};
    ghost use Rattle.packet_fields.specs.declared.field.Field.{Field};
    ghost use Rattle.action_profile.specs.FieldSets.{has, alone, joined};

    /// The empty set.
    pub const NONE: FieldSet = FieldSet(0);

    /// Both addresses and both ports.
    pub const ENDPOINTS: FieldSet = FieldSet(
        FieldSet::SRC_IP.0 | FieldSet::DST_IP.0 | FieldSet::SRC_PORT.0 | FieldSet::DST_PORT.0,
    );

    /// The set of this field alone.
    pub fn of(field: Field) -> FieldSet
        ensures { result ≡ alone field }
    {
        match field {
            Field::LinkDst => FieldSet::LINK_DST,
            Field::LinkSrc => FieldSet::LINK_SRC,
            Field::Tag => FieldSet::TAG,
            Field::Tos => FieldSet::TOS,
            Field::Ttl => FieldSet::TTL,
            Field::SrcIp => FieldSet::SRC_IP,
            Field::DstIp => FieldSet::DST_IP,
            Field::SrcPort => FieldSet::SRC_PORT,
            Field::DstPort => FieldSet::DST_PORT,
            Field::Payload => FieldSet::PAYLOAD,
        }
    }

    /// Is the field in the set?
    #[tactic(auto, using(crate::proofs::Bits::has_tested))]
    pub fn has(self, field: Field) -> bool
        ensures { result ≡ has self field }
    {
        self.contains(FieldSet::of(field))
    }

    /// The fields of either set.
    #[tactic(auto, using(crate::proofs::Bits::has_joined))]
    pub fn with(self, other: FieldSet) -> FieldSet
        ensures same { result ≡ joined self other }
        ensures fields { (f : Field) → has result f ≡ (has self f || has other f) }
    {
        self.union(other)
    }
}
