//! Properties of a table in the order of first sight, stated without its definitions.
ghost use Rattle.std.specs.Prelude.{◌≡◌, ℕ, List, [], ◌∷◌, ◌++◌, Some, is_some, if◌then◌else◌};
ghost use Rattle.std.specs.Map.{keys_of};
ghost use Rattle.first_sight.specs.FirstSight.{belonging, noted, lines_by};
ghost use Rattle.first_sight.specs.Lines.{rows_by};

/// The value that was noted for a key is found again, and the value of any other key doesn't change. A key that was
/// seen keeps its place, and a new one goes last.
pub fn noted_is_found<K: Eq, V>()
    ensures found { (seen : List (K × V)) (key asked : K) (value : V) →
        belonging K.eq (noted K.eq seen key value) asked ≡ (if K.eq asked key then Some value else belonging K.eq seen asked) }
    ensures order { (seen : List (K × V)) (key : K) (value : V) →
        keys_of (noted K.eq seen key value) ≡ (if is_some (belonging K.eq seen key) then keys_of seen else keys_of seen ++ key ∷ []) }
{}

/// Lines that show of each entry nothing but its place and its key are the lines of the keys.
pub fn lines_of_keys<K, V>()
    ensures lines { (line : ℕ → K → List ℕ) (seen : List (K × V)) → lines_by (λ place entry. line place entry.0) seen ≡ lines_by line (keys_of seen) }
    ensures rows { (line : ℕ → K → List ℕ) (seen : List (K × V)) → rows_by (λ place entry. line place entry.0) seen ≡ rows_by line (keys_of seen) }
{}
