//! The option `--sync`, which is taken out of the words before the call that the theorem speaks of.
ghost use Rattle.std.specs.Prelude.{◌≡◌, ◌<◌, IfSome, false, is_some, length, map, string_bytes};
ghost use Rattle.nfp.specs.Sync.{has_out, passed_on, sync_at, sync_from, takes_value as has_value};

/// Takes the first `--sync` out of the words of a command that writes OUT, and returns whether there was one. Behind `--`
/// each word is a name.
#[tactic(auto, using(crate::proofs::Syncs::removed))]
pub fn take_sync(words: &mut Vec<String>) -> bool
    ensures words { map string_bytes words.new.items ≡ passed_on (map string_bytes words.old.items) }
    ensures syncs { result ≡ is_some (sync_at (map string_bytes words.old.items)) }
{
    if writes_out(words) {
        if let Some(place) = place_of_sync(words) {
            words.remove(place);
            return true;
        }
    }
    false
}

// Whether the words are those of a command that writes OUT.
fn writes_out(words: &[String]) -> bool
    ensures { result ≡ has_out (map string_bytes words.now) }
{
    match words.first() {
        Some(word) => word.as_str() == "run" || word.as_str() == "flows",
        None => false,
    }
}

// Whether the word is an option whose value is the next word.
fn takes_value(word: &str) -> bool
    ensures { result ≡ has_value word.now }
{
    word == "--mergers"
        || word == "--burst"
        || word == "--merge"
        || word == "--graph"
        || word == "--workers"
}

// The place of the first `--sync` before any `--`. The value of an option is passed over.
#[tactic(auto, using(crate::proofs::Syncs::sync_here, crate::proofs::Syncs::sync_ends, crate::proofs::Syncs::sync_later, crate::proofs::Syncs::sync_past), unfolding(crate::specs::Sync::sync_from))]
fn place_of_sync(words: &[String]) -> Option<usize>
    ensures place { result ≡ sync_from 0 false (map string_bytes words.now) }
    ensures within { IfSome result (λ place. place < length words.now) }
{
    let mut is_value = false;
    for (place, word) in words.iter().enumerate() {
        if is_value {
            is_value = false;
        } else {
            if word.as_str() == "--sync" {
                return Some(place);
            }
            if word.as_str() == "--" {
                return None;
            }
            is_value = takes_value(word.as_str());
        }
    }
    None
}
