//! The words of the command line.

pub use crate::given::misfit;
use crate::page::Page;
use crate::release::VERSION;

const FORMS: &str = "\
the words are one of:
  nfp run POLICY CAPTURE OUT REPORT [--mergers N] [--burst N] [--merge WAY] [--graph NAME] [--sync]
  nfp why POLICY CAPTURE REPORT [--record N]
  nfp plan POLICY [--graph NAME]
  nfp demo SEED COUNT [--mergers N] [--burst N] [--merge WAY]
  nfp flows CAPTURE OUT [--workers N] [--burst N] [--sync]
POLICY and CAPTURE are read, OUT and REPORT are written anew; behind `--` each word is a name
NAME of --graph is read too: a text of graphs written by hand, for chains of the policy
N of --record is 1 to 4294967295: the trace of this record is printed
OUT of flows has packets of NetFlow version 5, and its CAPTURE is in the classic format pcap
--sync brings OUT and REPORT to the disk before the last line is printed
mergers and workers are 1 to 16 (2 where it isn't said), a burst has 1 to 65536 packets (1024), WAY is inbox or board (inbox)";

const SAME_NAME: &str = "two of the files have the same name, and each is to be a file of its own";

// Words that ask for the version.
const VERSION_WORDS: &[&str] = &["--version", "-V", "version"];

// Words that ask for the forms.
const HELP_WORDS: &[&str] = &["--help", "-h", "help"];

/// The forms of the commands.
pub fn forms(page: &mut Page) {
    page.tell(FORMS);
}

/// The first word is no command. It may ask for the version, or for the forms.
pub fn no_command(page: &mut Page, word: &str) {
    if VERSION_WORDS.contains(&word) {
        page.tell("version {}");
        page.say(VERSION);
    } else if !HELP_WORDS.contains(&word) {
        page.tell_word("`{}` is no command", word.as_bytes());
    }
}

/// A number has to lie in this range.
pub fn out_of_range(page: &mut Page, what: &str, least: u64, most: u64) {
    page.tell("{} is a number from {} to {}");
    page.say(what);
    page.number(least);
    page.number(most);
}

/// There is no such way of merging.
pub fn no_way(page: &mut Page) {
    page.tell("the value of --merge is one of inbox and board");
}

/// Two of the names are equal.
pub fn same_name(page: &mut Page) {
    page.tell(SAME_NAME);
}

/// The word at a place, counted from 1, isn't UTF-8.
pub fn not_utf8(page: &mut Page, place: u64, word: &[u8]) {
    page.tell("word {} isn't UTF-8: `{}`; rename the file");
    page.number(place);
    page.word(word);
}
