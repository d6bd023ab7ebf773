//! The lines of a text and their words.
ghost use Rattle.std.specs.Prelude.{◌≤◌, length};

/// A line with its number, counted from 1, and the part of it before a comment.
#[derive(Clone, Copy)]
pub struct Row<'a> {
    pub number: u32,
    pub text: &'a [u8],
    said: &'a [u8],
}

impl<'a> Row<'a> {
    pub fn new(number: u32, line: &'a [u8]) -> Self {
        let text = line.strip_suffix(b"\r").unwrap_or(line);
        let said = &text[..until(text, b'#')];
        Row { number, text, said }
    }

    /// The word at a place, counted from 0, or nothing.
    pub fn word(&self, place: usize) -> &'a [u8] {
        let (start, end) = self.span(place);
        part(self.said, start, end)
    }

    /// The column of the word at a place, counted from 0, or the column after the last word.
    pub fn column(&self, place: usize) -> usize {
        self.span(place).0
    }

    // Where the word at a place begins and ends. A word that isn't there begins and ends after the last one.
    fn span(&self, place: usize) -> (usize, usize) {
        let mut last = 0;
        for _ in 0..place {
            let (start, end) = next_word(self.said, last);
            if start == end {
                return (last, last);
            }
            last = end;
        }
        match next_word(self.said, last) {
            (start, end) if start < end => (start, end),
            _ => (last, last),
        }
    }

    /// The first word from a column on, and the column at which it begins. After the last word it is empty.
    pub fn word_from(&self, column: usize) -> (usize, &'a [u8]) {
        let (start, end) = next_word(self.said, column);
        (start, part(self.said, start, end))
    }

    /// The column of the first word like this after the first word of the line, or nothing.
    pub fn column_of(&self, word: &[u8]) -> Option<usize> {
        let mut column = self.word(0).len().saturating_add(self.column(0));
        for _ in 0..self.said.len() {
            let (start, found) = self.word_from(column);
            if found.is_empty() {
                return None;
            }
            if found == word {
                return Some(start);
            }
            column = start.saturating_add(found.len());
        }
        None
    }

    /// The place of the word at a column.
    pub fn place_at(&self, column: usize) -> Option<usize> {
        let mut last = 0;
        for place in 0..self.said.len() {
            let (start, end) = next_word(self.said, last);
            if start == end {
                return None;
            }
            if start == column {
                return Some(place);
            }
            last = end;
        }
        None
    }

    pub fn begins_with(&self, word: &[u8]) -> bool {
        self.word(0) == word
    }

    /// Is it a line `set` or `rule`?
    pub fn is_setting(&self) -> bool {
        self.begins_with(b"set") || self.begins_with(b"rule")
    }

    /// Does it begin with a word, and does this name follow?
    pub fn names(&self, word: &[u8], name: &[u8]) -> bool {
        self.begins_with(word) && self.word(1) == name
    }
}

/// Is a word one of these?
pub fn is_one_of(word: &[u8], words: &[&[u8]]) -> bool {
    words.contains(&word)
}

/// The number of bytes before the first one like this.
pub fn until(text: &[u8], byte: u8) -> usize
    ensures { result ≤ length text.now }
{
    for (place, found) in text.iter().enumerate() {
        if *found == byte {
            return place.min(text.len());
        }
    }
    text.len()
}

/// The text for a word in a table, or nothing.
pub fn text_beside(table: &[(&[u8], &'static str)], word: &[u8]) -> &'static str {
    for (each, text) in table {
        if *each == word {
            return *text;
        }
    }
    ""
}

/// The bytes of a text between two places.
pub fn part(text: &[u8], start: usize, end: usize) -> &[u8] {
    let end = end.min(text.len());
    &text[start.min(end)..end]
}

// Where the first word from this place on begins and ends. If there is no word, both are the same place.
fn next_word(text: &[u8], from: usize) -> (usize, usize) {
    let start = skip(text, from, true);
    (start, skip(text, start, false))
}

// The first place, from this one on, after blanks, or after bytes that are not blanks.
fn skip(text: &[u8], from: usize, blanks: bool) -> usize {
    let mut place = from;
    for byte in &text[from.min(text.len())..] {
        if is_blank(*byte) != blanks {
            return place;
        }
        place = place.saturating_add(1);
    }
    place
}

fn is_blank(byte: u8) -> bool {
    byte == b' ' || byte == b'\t'
}

/// The place of the line with a number among the lines, or the place after them.
pub fn place_of(rows: &[Row<'_>], number: u32) -> usize
    ensures { result ≤ length rows.now }
{
    for (place, row) in rows.iter().enumerate() {
        if row.number == number {
            return place.min(rows.len());
        }
    }
    rows.len()
}

/// The line at a place, or an empty one.
pub fn row_at<'a>(rows: &[Row<'a>], place: usize) -> Row<'a> {
    match rows.get(place) {
        Some(row) => *row,
        None => Row::new(0, b""),
    }
}

/// The first of these lines that begins with a word and is followed by this name.
pub fn first_naming<'a>(rows: &[Row<'a>], word: &[u8], name: &[u8]) -> Option<Row<'a>> {
    for row in rows {
        if row.names(word, name) {
            return Some(*row);
        }
    }
    None
}

/// The line with a number among the lines, or an empty one.
pub fn row_of<'a>(rows: &[Row<'a>], number: u32) -> Row<'a> {
    row_at(rows, place_of(rows, number))
}

/// The lines of the chain with this number, counted from 0, with that of the chain.
pub fn chain_at<'r, 'a>(rows: &'r [Row<'a>], number: u32) -> &'r [Row<'a>] {
    let mut chains = 0u32;
    for (place, row) in rows.iter().enumerate() {
        if row.begins_with(b"chain") {
            if chains == number {
                return up_to_chain(&rows[place.min(rows.len())..]);
            }
            chains = chains.saturating_add(1);
        }
    }
    &rows[rows.len()..]
}

/// The first of these lines, and those that follow up to the next chain.
pub fn up_to_chain<'r, 'a>(rows: &'r [Row<'a>]) -> &'r [Row<'a>] {
    for (place, row) in rows.iter().enumerate() {
        if place > 0 && row.begins_with(b"chain") {
            return &rows[..place.min(rows.len())];
        }
    }
    rows
}

/// The lines after a place.
pub fn rows_behind<'r, 'a>(rows: &'r [Row<'a>], place: usize) -> &'r [Row<'a>] {
    &rows[place.saturating_add(1).min(rows.len())..]
}

/// The last line before this place that begins with a word.
pub fn last_before<'a>(rows: &[Row<'a>], place: usize, word: &[u8]) -> Option<Row<'a>> {
    let mut last = None;
    for (at, row) in rows.iter().enumerate() {
        if at < place && row.begins_with(word) {
            last = Some(*row);
        }
    }
    last
}
