//! Lines that set a function up, whatever they say.
ghost use Rattle.std.specs.Prelude.{◌≡◌, if◌then◌else◌, codes};
ghost use Rattle.std.specs.Str.{bytes_eq};
ghost use Rattle.function_lines.specs.KindLines.{word_of, has_same_key, repeats, lesser};

use policy_text::Setting;

/// Is it a `set` line whose key occurred in a line before?
pub fn repeats(before: &[Setting], setting: &Setting) -> bool
    ensures { result ≡ repeats before.now setting.now }
{
    before.iter().any(|other| has_same_key(setting, other))
}

fn has_same_key(setting: &Setting, other: &Setting) -> bool
    ensures { result ≡ has_same_key setting.now other.now }
{
    is_set(setting) && is_set(other) && word_of(setting, 1) == word_of(other, 1)
}

fn is_set(setting: &Setting) -> bool
    ensures { result ≡ bytes_eq (word_of setting.now 0) (codes "set") }
{
    word_of(setting, 0) == b"set".as_slice()
}

fn word_of(setting: &Setting, place: usize) -> &[u8]
    ensures { result.now ≡ word_of setting.now place }
{
    match setting.words.as_slice().get(place) {
        Some(word) => word.bytes(),
        None => &[],
    }
}

/// The lesser of the least refused line so far and `line`, if `line` is refused.
pub fn least_refused(least: Option<u32>, refused: bool, line: u32) -> Option<u32>
    ensures { result ≡ (if refused then lesser least line else least) }
{
    match least {
        _ if !refused => least,
        None => Some(line),
        Some(other) => Some(other.min(line)),
    }
}
