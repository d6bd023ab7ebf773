//! A law of what is due on a link.
ghost use Rattle.std.specs.Prelude.{◌≡◌, ◌++◌, ◌∷◌, [], List, length};
ghost use Rattle.ruled_links.specs.Fitting.{FitsAt, still_due};

use crate::fit::LinkFit;

/// A law: after the messages that went over a link, one more message fits its place exactly if it fits the first of
/// those that are still due, and after it the others are due. So an end can be described by the list of what is still
/// due on it.
pub fn due_messages_go_one_by_one<T: LinkFit>()
    ensures fits { (due before left : List T) → (d message : T) → still_due due before ≡ d ∷ left → T.fits d message → FitsAt T.fits due (length before) message }
    ensures first { (due before : List T) → (message : T) → FitsAt T.fits due (length before) message → (d : T) × (left : List T) × (still_due due before ≡ d ∷ left) × T.fits d message }
    ensures others { (due before left : List T) → (d message : T) → still_due due before ≡ d ∷ left → still_due due (before ++ message ∷ []) ≡ left }
{}
