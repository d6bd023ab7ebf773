//! A law of streams that are shared to links in turn.
ghost use Rattle.std.specs.Prelude.{◌≡◌, ◌<◌, ◌∷◌, ℕ, List, [], length, pred};
ghost use Rattle.packet_messages.specs.Messages.{front, turned};
ghost use Rattle.packet_messages.specs.Turns.{share, share_len, shares};

/// A law: links to which a stream is shared in turn. The first link has the next message, and every m-th after it; once
/// it gave that message and went to the back, the links have the shares of the rest of the stream. The number of links
/// is as requested, and the length of a share follows from the length of the stream. If a stream is shared to one link,
/// that link has the whole stream.
pub fn shares_go_in_turn<T>()
    ensures front { (m : ℕ) (x : T) (xs : List T) → 0 < m → front (shares m (x ∷ xs)) ≡ x ∷ share m (pred m) xs }
    ensures turned { (m : ℕ) (x : T) (xs : List T) → 0 < m → turned (shares m (x ∷ xs)) ≡ shares m xs }
    ensures count { (m : ℕ) (xs : List T) → length (shares m xs) ≡ m }
    ensures long { (m i : ℕ) (xs : List T) → length (share m i xs) ≡ share_len m i (length xs) }
    ensures one { (xs : List T) → shares 1 xs ≡ xs ∷ [] }
{}
