//! Words, each after one space.
ghost use Rattle.std.specs.Prelude.{◌≡◌, ◌++◌, OnOk, codes, map};
ghost use Rattle.text_lines.specs.Texts.{spaced};

use std::alloc::AllocError;

/// Appends words, each after one space.
pub fn push_words(text: &mut Vec<u8>, words: &[&[u8]]) -> Result<(), AllocError>
    ensures { OnOk result (text.new.items ≡ text.old.items ++ spaced (map (λ word. word.now) words.now)) }
{
    'words: for word in words {
        push_word(text, word)?;
    }
    Ok(())
}

/// Appends a word after one space.
pub fn push_word(text: &mut Vec<u8>, word: &[u8]) -> Result<(), AllocError>
    ensures { OnOk result (text.new.items ≡ text.old.items ++ codes " " ++ word.now) }
{
    text.push(b' ')?;
    text.extend_from_slice(word)
}
