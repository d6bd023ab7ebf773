//! The tags of a frame.
ghost use Rattle.std.specs.Prelude.{◌≡◌, ◌≢◌, ◌≤◌, ◌+◌, ◌++◌, true, take, length, IfSome, IfOk, IsSome};
ghost use Rattle.std.specs.Option.{option_copied};
ghost use Rattle.packet_fields.specs.Frames.{is_tag_list, packet as packet_of, IsFramed};
ghost use Rattle.packet_fields.specs.Fields.{value, ether_type};
ghost use Rattle.packet_fields.specs.Writing.{with_tags as with_tags_in, rest_of};
ghost use Rattle.packet_fields.specs.declared.field.Field.{Field};

use crate::field::Field;
use crate::frame::Frame;
use crate::places::{packet_from, packet_place};
use std::alloc::{AllocError, Global};

/// The list of tags, if the frame has an EtherType; it may be empty.
pub fn tags(frame: &[u8]) -> Option<&[u8]>
    ensures value { option_copied result ≡ value Field.Tag frame.now }
    ensures whole { IfSome result (λ list. is_tag_list list.now ≡ true) }

    // The addresses, the tags and the packet make the frame, and the packet begins without a further tag.
    ensures framed { IfSome result (λ list. IsFramed (take 12 frame.now) list.now (packet_of frame.now) frame.now) }
{
    if frame.len() >= 14 {
        Some(&frame[12..packet_place(frame)])
    } else {
        None
    }
}

/// The frame with a list of whole tags in place of its own. The frame has an EtherType.
pub fn with_tags(alloc: Global, list: &[u8], frame: &[u8]) -> Result<Frame, AllocError>
    requires present { IsSome (value Field.Tag frame.now) }
    requires whole { is_tag_list list.now ≡ true }
    ensures whole { IfOk result (λ new. new ≡ with_tags_in list.now frame.now) }

    // The frame has these tags, and every other field and the bytes of no field stay.
    ensures tags { IfOk result (λ new. value Field.Tag new ≡ Some list.now) }
    ensures others { IfOk result (λ new. (g : Field) → Field.Tag ≢ g → value g new ≡ value g frame.now) }
    ensures packet { IfOk result (λ new. packet_of new ≡ packet_of frame.now) }
    ensures rest { IfOk result (λ new. rest_of new ≡ rest_of frame.now) }
    ensures ether_type { IfOk result (λ new. ether_type new ≡ ether_type frame.now) }
{
    let packet = packet_from(frame, packet_place(frame));
    let bytes = joined(alloc, &frame[..12], list, packet)?;
    Ok(Frame::new(bytes))
}

/// Three lists of bytes, one after another.
fn joined(alloc: Global, first: &[u8], second: &[u8], third: &[u8]) -> Result<Vec<u8>, AllocError>
    requires { (length first.now + length second.now) + length third.now ≤ usize.MAX }
    ensures { IfOk result (λ bytes. bytes.items ≡ first.now ++ (second.now ++ third.now)) }
{
    let mut bytes = Vec::with_capacity(alloc, first.len() + second.len() + third.len())?;
    bytes.extend_from_slice(first)?;
    bytes.extend_from_slice(second)?;
    bytes.extend_from_slice(third)?;
    Ok(bytes)
}
