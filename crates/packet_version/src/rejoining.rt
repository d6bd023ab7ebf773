//! How a packet that only one branch had is put together again.

ghost use Rattle.std.specs.Prelude.{◌≡◌, ◌≢◌, List, Option, length, true, IsSome, IfSome};
ghost use Rattle.packet_fields.specs.declared.field.Field.{Field};
ghost use Rattle.action_profile.specs.Modes.{has_write};
ghost use Rattle.packet_version.specs.Parts.{as_list, as_map, changed};
ghost use Rattle.packet_version.specs.Splitting.{IsWhole, packet_parts};
ghost use Rattle.packet_version.specs.Rejoining.{rejoined_by, rejoined_part, rejoined_parts, with_rejoined};

use crate::apart::Apart;
use crate::gathered::Gathered;
use crate::loan::Loan;
use crate::part::Part;
use crate::version::Version;
use action_profile::{Touch, all_fields};
use packet_fields::Field;
use std::mem;

impl Version {
    /// Puts the packet together again after a stage of one branch, which had it whole ([`crate::deal_whole`]): the
    /// branch's part of each field that it wrote, and what else the branch had of the packet. It allocates nothing.
    #[inline(always)]
    pub fn rejoin(self) -> Apart
        requires kept { IsSome self.kept }
        requires whole { IfSome self.kept (λ base. IsWhole (rejoined_parts self base) base.rest) }
        ensures { IfSome self.kept (λ base. result ≡ record base { parts = as_list (rejoined_parts self base) }) }
    {
        let Version {
            within,
            mut own,
            lent,
            touch,
            fixed,
        } = self;
        if let Some(held) = within {
            held.has_ten();
            return Apart { held, fixed };
        }
        let Some(Loan::Whole(held)) = lent else {
            unreachable!()
        };
        held.has_ten();
        let mut gathered = Gathered { held, fixed };
        put_all_back(&mut gathered, own.as_mut_slice(), touch);
        gathered.finish()
    }
}

/// Puts back the branch's own parts.
fn put_all_back(gathered: &mut Gathered, own: &mut [Option<Part>], touch: Touch)
    requires listed { gathered.old.parts ≡ as_list (packet_parts gathered.old) }
    requires there { (f : Field) → has_write f touch ≡ true → length own.old ≡ 10 }
    ensures { gathered.new ≡ with_rejoined gathered.old (rejoined_by touch (as_map own.old) (packet_parts gathered.old)) }
{
    for field in all_fields() {
        put_field_back(gathered, own, touch, *field);
    }
}

/// Puts back the branch's part of a field that it writes.
fn put_field_back(gathered: &mut Gathered, own: &mut [Option<Part>], touch: Touch, field: Field)
    requires listed { gathered.old.parts ≡ as_list (packet_parts gathered.old) }
    requires there { (f : Field) → has_write f touch ≡ true → length own.old ≡ 10 }
    ensures part { gathered.new ≡ with_rejoined gathered.old (changed field (rejoined_by touch (as_map own.old) (packet_parts gathered.old) field) (packet_parts gathered.old)) }
    ensures others { (f : Field) → f ≢ field → as_map own.new f ≡ as_map own.old f }
    ensures len { length own.new ≡ length own.old }
{
    if !touch.writes.has(field) {
        return;
    }
    let part = mem::replace(&mut own[field.number()], None);
    put_part_back(gathered, part, field);
}

/// Puts back a part that the branch wrote or that `gathered` lacks.
fn put_part_back(gathered: &mut Gathered, part: Option<Part>, field: Field)
    requires { gathered.old.parts ≡ as_list (packet_parts gathered.old) }
    ensures { gathered.new ≡ with_rejoined gathered.old (changed field (rejoined_part part (packet_parts gathered.old field)) (packet_parts gathered.old)) }
{
    let Some(part) = part else {
        return;
    };
    if part.writer() == 0 && gathered.has(field) {
        return;
    }
    gathered.put(field, part);
}
