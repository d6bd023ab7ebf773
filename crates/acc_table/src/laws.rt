//! Laws of the map of a table.

ghost use Rattle.std.specs.Prelude.{ℕ, ◌<◌, ◌≤◌, List, Contains, length};
ghost use Rattle.acc_table.specs.Arrivals.{HasRoomFor, IsOpen, IsOpenAmong, Table};

/// A law: each open packet takes one place. So a table with a place for each packet of a set, in which every open
/// packet is, has room for any packet of the set. The second clause says it for the packets of a burst, numbered from
/// 0.
pub fn open_packets_take_a_place_each<T>()
    ensures among { (t : Table T) → (pids : List ℕ) → (pid : ℕ) → IsOpenAmong t pids → length pids ≤ t.entries → Contains pids pid → HasRoomFor t pid }
    ensures below { (t : Table T) → (count pid : ℕ) → ((p : ℕ) → IsOpen t p → p < count) → count ≤ t.entries → pid < count → HasRoomFor t pid }
{}
