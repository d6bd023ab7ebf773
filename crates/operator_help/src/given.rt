//! The words that follow a command, and the first that doesn't fit.

use crate::lines::{part, until};
use crate::page::Page;

const EMPTY: &str = "a name is empty";

const DASH: &str =
    "a single `-` is no name: `./-` is a file of that name, and /dev/stdin and /dev/stdout are what comes and goes through a pipe";

const NO_OPTION: &str =
    "`{}` is no option of `{}`; for a file of that name write `./` before it, or `--` before the names";

const TWICE: &str = "`{}` is given twice";

const NO_VALUE: &str = "`{}` has no value";

const NO_VALUE_DUE: &str = "`{}` takes no value";

/// The option that the program takes out of the words of a command that writes OUT, once.
const SYNC: &[u8] = b"--sync";

const TOO_MANY: &str = "`{}` is a name too many: `{}` has {}";

const JOIN: &str =
    "several captures are joined to one by this (mergecap is one of Wireshark's tools):\n  mergecap -F pcap -w NEW.pcap FIRST SECOND ..";

const MISSING: &str = "{} is missing: `{}` has {}";

/// How many options a command has at most.
const MOST_OPTIONS: usize = 4;

/// What follows a command: its names in their order, and its options.
#[derive(Clone, Copy)]
struct Form {
    command: &'static str,
    names: &'static [&'static str],
    /// The same in a row.
    said: &'static str,
    options: &'static [&'static [u8]],
}

const RUN: &Form = &Form {
    command: "run",
    names: &["POLICY", "CAPTURE", "OUT", "REPORT"],
    said: "POLICY CAPTURE OUT REPORT",
    options: &[b"--mergers", b"--burst", b"--merge", b"--graph"],
};

const WHY: &Form = &Form {
    command: "why",
    names: &["POLICY", "CAPTURE", "REPORT"],
    said: "POLICY CAPTURE REPORT",
    options: &[b"--record"],
};

const PLAN: &Form = &Form {
    command: "plan",
    names: &["POLICY"],
    said: "POLICY",
    options: &[b"--graph"],
};

const FLOWS: &Form = &Form {
    command: "flows",
    names: &["CAPTURE", "OUT"],
    said: "CAPTURE OUT",
    options: &[b"--workers", b"--burst"],
};

const DEMO: &Form = &Form {
    command: "demo",
    names: &["SEED", "COUNT"],
    said: "SEED COUNT",
    options: &[b"--mergers", b"--burst", b"--merge"],
};

const FORMS: &[&Form] = &[RUN, WHY, PLAN, FLOWS, DEMO];

/// Reports the first word after a command that doesn't fit, or what is missing.
pub fn misfit(page: &mut Page, words: &[String]) {
    let mut reading = Reading::new(form_of(words));
    for (place, word) in words.iter().enumerate() {
        if place > 0 && !reading.takes(page, word.as_bytes()) {
            return;
        }
    }
    reading.end(page);
}

fn form_of(words: &[String]) -> &'static Form {
    match words.first() {
        Some(word) => form_named(word.as_str()),
        None => PLAN,
    }
}

fn form_named(command: &str) -> &'static Form {
    for form in FORMS {
        if form.command == command {
            return *form;
        }
    }
    PLAN
}

/// How far the words are read.
#[derive(Clone, Copy)]
struct Reading {
    form: &'static Form,
    names: usize,
    /// Is each word a name from now on?
    behind: bool,
    /// The option whose value comes next.
    waits: Option<&'static [u8]>,
    /// The options that were given.
    given: [bool; MOST_OPTIONS],
}

impl Reading {
    fn new(form: &'static Form) -> Self {
        Reading {
            form,
            names: 0,
            behind: false,
            waits: None,
            given: [false; MOST_OPTIONS],
        }
    }

    // Does the next word fit? If not, this is reported.
    fn takes(&mut self, page: &mut Page, word: &[u8]) -> bool {
        match self.waits.take() {
            Some(option) => self.takes_value(page, option, word),
            None => self.takes_free(page, word),
        }
    }

    // The same of a word that is not the value of an option.
    fn takes_free(&mut self, page: &mut Page, word: &[u8]) -> bool {
        if self.behind || !word.starts_with(b"-") || word == b"-".as_slice() {
            self.takes_name(page, word)
        } else if word == b"--".as_slice() {
            self.behind = true;
            true
        } else {
            self.takes_option(page, word)
        }
    }

    fn takes_value(&self, page: &mut Page, option: &[u8], value: &[u8]) -> bool {
        if value.starts_with(b"-") || value.is_empty() {
            return tell_word(page, NO_VALUE, option);
        }
        true
    }

    fn takes_name(&mut self, page: &mut Page, word: &[u8]) -> bool {
        if word.is_empty() {
            return tell(page, EMPTY);
        }
        if word == b"-".as_slice() {
            return tell(page, DASH);
        }
        if self.names >= self.form.names.len() {
            return self.too_many(page, word);
        }
        self.names = self.names.saturating_add(1);
        true
    }

    // A name is one too many, as one of several captures is.
    fn too_many(&self, page: &mut Page, word: &[u8]) -> bool {
        tell_word(page, TOO_MANY, word);
        self.say_form(page);
        if self.form.names.contains(&"CAPTURE") {
            page.tell(JOIN);
        }
        false
    }

    fn takes_option(&mut self, page: &mut Page, word: &[u8]) -> bool {
        let option = &word[..until(word, b'=')];
        match place_in(self.form.options, option) {
            Some((place, option)) => self.takes_once(page, word, place, option),
            None if option == SYNC && self.form.names.contains(&"OUT") => {
                let text = if option.len() < word.len() {
                    NO_VALUE_DUE
                } else {
                    TWICE
                };
                tell_word(page, text, option)
            }
            None => self.no_option(page, option),
        }
    }

    fn no_option(&self, page: &mut Page, option: &[u8]) -> bool {
        tell_word(page, NO_OPTION, option);
        page.say(self.form.command);
        false
    }

    // Takes the option at this place of the form, unless it was given before or has an empty value after `=`.
    fn takes_once(
        &mut self,
        page: &mut Page,
        word: &[u8],
        place: usize,
        option: &'static [u8],
    ) -> bool {
        if self.is_given(place) {
            tell_word(page, TWICE, option)
        } else if option.len() < word.len() {
            let value = part(word, option.len().saturating_add(1), word.len());
            self.takes_value(page, option, value)
        } else {
            self.waits = Some(option);
            true
        }
    }

    // Was the option at this place of the form given before? From now on it counts as given.
    fn is_given(&mut self, place: usize) -> bool {
        let place = place.min(MOST_OPTIONS - 1);
        let before = self.given[place];
        self.given[place] = true;
        before
    }

    // Reports what is missing after the last word.
    fn end(&self, page: &mut Page) {
        if let Some(option) = self.waits {
            tell_word(page, NO_VALUE, option);
        } else if let Some(name) = self.form.names.get(self.names) {
            page.tell(MISSING);
            page.say(name);
            self.say_form(page);
        }
    }

    fn say_form(&self, page: &mut Page) -> bool {
        page.say(self.form.command);
        page.say(self.form.said);
        false
    }
}

fn tell(page: &mut Page, text: &'static str) -> bool {
    page.tell(text);
    false
}

fn tell_word(page: &mut Page, text: &'static str, word: &[u8]) -> bool {
    page.tell_word(text, word);
    false
}

// The place of an option among these, and its own text.
fn place_in(options: &[&'static [u8]], option: &[u8]) -> Option<(usize, &'static [u8])> {
    for (place, each) in options.iter().enumerate() {
        if *each == option {
            return Some((place, *each));
        }
    }
    None
}
