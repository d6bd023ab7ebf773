//! The profile of each kind.

ghost use Rattle.std.specs.Prelude.{◌≡◌};
ghost use Rattle.action_profile.specs.Profiles.{profile_of};

use crate::field_set::FieldSet;
use crate::kind::Kind;
use crate::rights::Profile;

const NOTHING: Profile = Profile {
    reads: FieldSet::NONE,
    writes: FieldSet::NONE,
    drops: false,
    state: false,
    counts: false,
    adds: false,
    removes: false,
    whole: false,
};

/// What a function of this kind may do. Allocates nothing.
pub fn profile(kind: Kind) -> Profile
    ensures { result ≡ profile_of kind }
{
    match kind {
        Kind::Firewall => Profile {
            reads: FieldSet::TAG.with(FieldSet::ENDPOINTS),
            drops: true,
            ..NOTHING
        },
        Kind::Signature => Profile {
            reads: FieldSet::PAYLOAD,
            drops: true,
            ..NOTHING
        },
        Kind::Nat => Profile {
            reads: FieldSet::ENDPOINTS,
            writes: FieldSet::ENDPOINTS,
            drops: true,
            state: true,
            ..NOTHING
        },
        Kind::Balancer => Profile {
            reads: FieldSet::SRC_IP
                .with(FieldSet::SRC_PORT)
                .with(FieldSet::DST_IP),
            writes: FieldSet::DST_IP,
            state: true,
            ..NOTHING
        },
        Kind::Monitor => Profile {
            reads: FieldSet::ENDPOINTS,
            counts: true,
            ..NOTHING
        },
        Kind::Limiter => Profile {
            reads: FieldSet::SRC_IP,
            drops: true,
            state: true,
            ..NOTHING
        },
        Kind::Marker => Profile {
            reads: FieldSet::ENDPOINTS,
            writes: FieldSet::TOS,
            ..NOTHING
        },
        Kind::Nexthop => Profile {
            reads: FieldSet::DST_IP,
            writes: FieldSet::LINK_DST.with(FieldSet::LINK_SRC),
            ..NOTHING
        },
        Kind::Hop => Profile {
            reads: FieldSet::TTL,
            writes: FieldSet::TTL,
            drops: true,
            ..NOTHING
        },
        Kind::Redactor => Profile {
            reads: FieldSet::PAYLOAD,
            writes: FieldSet::PAYLOAD,
            ..NOTHING
        },
        Kind::Tagger => Profile {
            reads: FieldSet::SRC_IP,
            adds: true,
            ..NOTHING
        },
        Kind::Untagger => Profile {
            removes: true,
            ..NOTHING
        },
        Kind::Encap | Kind::Decap => Profile {
            whole: true,
            ..NOTHING
        },
    }
}
