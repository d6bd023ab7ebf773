//! The way among the words.
ghost use Rattle.std.specs.Prelude.{◌≡◌};
ghost use Rattle.command_words.specs.Named.{word_in};
ghost use Rattle.command_words.specs.Words.{way_of};

use crate::requests::Way;
use crate::usage::UsageFault;

/// How the results of the branches of a stage come together: over links without the option.
pub fn merge_way(word: Option<&str>) -> Result<Way, UsageFault>
    ensures { result ≡ way_of (word_in word.entry) }
{
    match word {
        None | Some("inbox") => Ok(Way::Inbox),
        Some("board") => Ok(Way::Board),
        Some(_) => Err(UsageFault::Merge),
    }
}
