//! Link addresses.
ghost use Rattle.std.specs.Prelude.{◌≡◌};
ghost use Rattle.std.specs.Option.{option_map};
ghost use Rattle.policy_text.specs.Bytes.{mac_of};
ghost use Rattle.nf_mark.specs.Links.{link_of};

use policy_text::mac;

/// The address of an interface on a link (IEEE 802, 8.2): six bytes, in the order in which a frame has them.
#[derive(Clone, Copy, Debug, PartialEq, Eq)]
pub struct LinkAddress(pub u8, pub u8, pub u8, pub u8, pub u8, pub u8);

impl LinkAddress {
    ghost use Rattle.std.specs.Prelude.{◌≡◌};
    ghost use Rattle.nf_mark.specs.Links.{link_bytes};

    /// The bytes, in the order in which a frame has them.
    pub fn bytes(self) -> [u8; 6]
        ensures { result ≡ link_bytes self }
    {
        [self.0, self.1, self.2, self.3, self.4, self.5]
    }
}

/// Reads six pairs of hexadecimal digits, separated by colons.
pub(crate) fn read_link(text: &[u8]) -> Option<LinkAddress>
    ensures { result ≡ option_map link_of (mac_of text.now) }
{
    let bytes = mac(text)?;
    Some(LinkAddress(bytes[0], bytes[1], bytes[2], bytes[3], bytes[4], bytes[5]))
}
