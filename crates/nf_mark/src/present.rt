//! Fields that a packet has.
ghost use Rattle.std.specs.Prelude.{◌≡◌, length, true, is_some};
ghost use Rattle.packet_fields.specs.Fields.{IsLengthOf};
ghost use Rattle.packet_version.specs.Versions.{names};
ghost use Rattle.packet_version.specs.Views.{seen_values, HasBytes};

use packet_fields::Field;
use packet_version::{View, view_is_formed};

/// Does the packet have this field, which the profile names? If so it has as many bytes as the field has.
pub(crate) fn has_field(view: &View, field: Field) -> bool
    requires named { names view.now.profile field ≡ true }
    ensures there { result ≡ is_some (seen_values view.now field) }
    ensures size { result ≡ true → HasBytes view.now field (λ bytes. IsLengthOf field (length bytes)) }
{
    view_is_formed(view);
    view.has(field)
}
