use std::marker::Model;

/// The name of a chain or a function. A name that `parse` made has 1 to 32 lower-case letters, digits, underscores and
/// dashes, and begins with a letter.
#[derive(Debug, Drop)]
pub struct Name {
    letters: Vec<u8>,
}

impl Model for Name {
    ghost use Rattle.std.specs.Prelude.{ℕ, List};

    ghost Value = { List ℕ };

    ghost view = { λ n. n.letters.items };
}

impl Name {
    ghost use Rattle.std.specs.Prelude.{◌≡◌};

    /// The name of these bytes.
    pub fn new(bytes: Vec<u8>) -> Self
        ensures { result ≡ bytes.items }
    {
        Name { letters: bytes }
    }

    /// The bytes of the name.
    pub fn bytes(&self) -> &[u8]
        ensures { result.now ≡ self.now }
    {
        &self.letters
    }

    /// Returns the bytes, without a copy.
    pub fn into_bytes(self) -> Vec<u8>
        ensures { result.items ≡ self }
    {
        let Name { letters } = self;
        letters
    }
}

/// A word of a line: bytes without a blank.
#[derive(Debug, Drop)]
pub struct Word {
    letters: Vec<u8>,
}

impl Model for Word {
    ghost use Rattle.std.specs.Prelude.{ℕ, List};

    ghost Value = { List ℕ };

    ghost view = { λ w. w.letters.items };
}

impl Word {
    ghost use Rattle.std.specs.Prelude.{◌≡◌};

    /// The word of these bytes.
    pub fn new(bytes: Vec<u8>) -> Self
        ensures { result ≡ bytes.items }
    {
        Word { letters: bytes }
    }

    /// The bytes of the word.
    pub fn bytes(&self) -> &[u8]
        ensures { result.now ≡ self.now }
    {
        &self.letters
    }

    /// Returns the bytes, without a copy.
    pub fn into_bytes(self) -> Vec<u8>
        ensures { result.items ≡ self }
    {
        let Word { letters } = self;
        letters
    }
}
