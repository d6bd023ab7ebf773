//! The actions of a function on a packet, and the answers of the table.

ghost use Rattle.std.specs.Prelude.{◌≡◌};
ghost use Rattle.dependency_table.specs.Actions.{all_actions};

use action_profile::FieldSet;
use packet_fields::Field;

/// One thing that a function may do to a packet.
#[derive(Clone, Copy, Debug, PartialEq, Eq)]
pub enum Action {
    /// Nothing.
    Pass,
    /// Sees the value of the field.
    Read(Field),
    /// May give the field a new value.
    Write(Field),
    /// May drop the packet.
    Drop,
    /// Keeps a state from one packet to the next.
    State,
    /// Notes the packet; the note is settled once it is known that no earlier function dropped it.
    Count,
    /// Works on the frame as a whole.
    Whole,
}

/// Whether two functions may run side by side.
#[derive(Clone, Copy, Debug, PartialEq, Eq)]
pub enum Answer {
    /// They may, on one copy of each field.
    Free,
    /// They may, if each has a copy of these fields.
    Copy(FieldSet),
    /// They may not: this action of the first function must come before this one of the second.
    Forbidden { first: Action, second: Action },
}

const ACTIONS: [Action; 25] = [
    Action::Read(Field::LinkDst),
    Action::Read(Field::LinkSrc),
    Action::Read(Field::Tag),
    Action::Read(Field::Tos),
    Action::Read(Field::Ttl),
    Action::Read(Field::SrcIp),
    Action::Read(Field::DstIp),
    Action::Read(Field::SrcPort),
    Action::Read(Field::DstPort),
    Action::Read(Field::Payload),
    Action::Write(Field::LinkDst),
    Action::Write(Field::LinkSrc),
    Action::Write(Field::Tag),
    Action::Write(Field::Tos),
    Action::Write(Field::Ttl),
    Action::Write(Field::SrcIp),
    Action::Write(Field::DstIp),
    Action::Write(Field::SrcPort),
    Action::Write(Field::DstPort),
    Action::Write(Field::Payload),
    Action::Drop,
    Action::State,
    Action::Count,
    Action::Whole,
    Action::Pass,
];

/// Every action, in the order in which a profile lists them.
#[tactic(auto, unfolding(crate::specs::Actions::all_actions))]
pub fn all_actions() -> &'static [Action]
    ensures { result.now ≡ all_actions }
{
    &ACTIONS
}
