//! What is wrong with a text of graphs, and what its lines may be.

use crate::lines::{
    Row, chain_at, last_before, place_of, row_at, row_of, rows_behind, up_to_chain,
};
use crate::page::Page;
use crate::policy::{NAMES, PolicyText, declaring, since_chain};
use crate::quotes::{
    Lines, Otherwise, bad_first_line, not_utf8, quote_row, quote_word, say_names, say_sign,
};
use action_profile::{Kind, profile};
use dependency_table::Action;
use graph_text::GraphFault;
use policy_text::is_name;

const LONG: &str = "{}: a text of graphs has at most 1048576 bytes";

const VERSION_LINE: &str = "the first line has to be `nfp-graph 1`";

const OTHERWISE: Otherwise = Otherwise {
    capture: "it is a capture: behind `--graph` stands a text of graphs",
    policy: "it is a policy: behind `--graph` stands a text of graphs, whose first line is `nfp-graph 1`",
    graphs: "",
};

const PLANNED: &str =
    "is it what `nfp plan` prints? `tools/plan-to-graph` makes a text of graphs of that";

const FORMS: &str =
    "the lines of a text of graphs are:\n  nfp-graph 1\n  chain NAME\n  stage\n  branch NAME ..";

const NO_LINE: &str =
    "no line begins with `{}`: behind the first line each begins with one of: chain stage branch";

const MISFIT: &str = "`{}` doesn't fit here";

const NUMBERS: &str =
    "`nfp plan` prints numbers behind `stage` and `branch`, and a text of graphs has none";

const NO_CHAIN_YET: &str = "a line `stage` stands behind the line `chain NAME` of its chain";

const NO_STAGE_YET: &str = "a line `branch` stands behind a line `stage`, in its chain";

const NO_BRANCH: &str =
    "a stage has one or more lines `branch NAME ..`, before the next stage and the next chain";

const NO_CHAIN: &str = "the policy has no chain `{}`; its chains are:{}";

const NO_FUNCTION: &str = "the chain `{}` has no function `{}`; its functions are:{}";

const ELSEWHERE: &str = "the policy declares it in another chain:";

const LISTED: &str = "the chain `{}` is listed before; all its stages stand behind one line:";

const STANDS: &str = "the function `{}` stands already; each function stands once:";

const STANDS_HERE: &str =
    "the function `{}` stands in this line already; each function stands once";

const WHOLE: &str =
    "this function of the chain rewrites packets whole, so no graph of the chain can be written:";

const LEFT_OUT: &str = "leave the chain out: one that the text doesn't list is compiled";

const INTO_BRANCH: &str =
    "write it into a branch, or leave the chain out: one that the text doesn't list is compiled";

const MISSING: &str =
    "`{}` stands in no branch, and a chain that is listed lists each of its functions:";

const ORDER: &str =
    "the order of the chain has `{}` before `{}`, so it stands in an earlier stage, or before it in one branch\n`nfp plan POLICY` prints the order; lines `order` of the policy make another one";

const DROPS: &str =
    "`{}` may drop a packet, and `{}` keeps a state: side by side it would remember what is dropped";

const WRITES: &str =
    "`{}` writes what `{}` reads: side by side it would be read as it came, before it is written";

const BEHIND: &str = "so `{}` stands behind it, in one branch or in a later stage:\n  branch {} {}";

/// A text of graphs that was refused: the name of its file and its text as it was read, and the policy that it is for.
#[derive(Clone, Copy)]
pub struct GraphText<'a> {
    pub name: &'a str,
    pub text: &'a [u8],
    pub policy: PolicyText<'a>,
}

/// A text of graphs that isn't taken.
pub fn fault(page: &mut Page, graph: GraphText<'_>, fault: GraphFault) {
    let rows = page.rows(graph.text);
    let declared = page.rows(graph.policy.text);
    let text = Lines {
        name: graph.name,
        text: graph.text,
        rows: &rows,
    };
    let policy = Lines {
        name: graph.policy.name,
        text: graph.policy.text,
        rows: &declared,
    };
    tell_fault(page, text, policy, fault);
}

// The same with the lines of the text and those of the policy.
fn tell_fault(page: &mut Page, text: Lines<'_>, policy: Lines<'_>, fault: GraphFault) {
    match fault {
        GraphFault::TooLong => too_long(page, text),
        GraphFault::NotUtf8(place) => not_utf8(page, text, place, OTHERWISE),
        GraphFault::BadVersionLine => bad_version_line(page, text),
        GraphFault::Syntax(line) => syntax(page, text, line),
        GraphFault::UnknownName(line) => unknown_name(page, text, policy, line),
        GraphFault::Twice(line) => twice(page, text, line),
        GraphFault::WholeChain(line) => whole_chain(page, text, policy, line),
        GraphFault::Missing(chain, function) => missing(page, text, policy, chain, function),
        GraphFault::OutOfOrder(chain, first, second) => {
            out_of_order(page, text, pair_of(policy, chain, first, second));
        }
        GraphFault::Forbidden(chain, first, second, action, _) => {
            forbidden(page, text, pair_of(policy, chain, first, second), action);
        }
    }
}

// A text of more than 1,048,576 bytes.
fn too_long(page: &mut Page, text: Lines<'_>) {
    page.tell(LONG);
    page.name(text.name);
    say_sign(page, text.text, OTHERWISE);
}

// The first line isn't `nfp-graph 1`.
fn bad_version_line(page: &mut Page, text: Lines<'_>) {
    bad_first_line(page, text, VERSION_LINE, OTHERWISE);
    say_planned(page, text.rows);
}

// Lines that begin as `nfp plan` prints them.
fn say_planned(page: &mut Page, rows: &[Row<'_>]) {
    if row_at(rows, 0).begins_with(b"chain") {
        page.tell(PLANNED);
    }
}

// A line that has no form, or is in a wrong place.
fn syntax(page: &mut Page, text: Lines<'_>, line: u32) {
    let place = place_of(text.rows, line);
    let row = row_at(text.rows, place);
    match misfit_of(row) {
        Some(column) => say_misfit(page, text.name, row, column),
        None => say_place(page, text, row, place),
    }
    page.tell(FORMS);
}

// The column of the first word that fits no form, or is missing.
fn misfit_of(row: Row<'_>) -> Option<usize> {
    if row.begins_with(b"chain") {
        chain_misfit(row)
    } else if row.begins_with(b"stage") {
        column_unless(row, 1, row.word(1).is_empty())
    } else if row.begins_with(b"branch") {
        column_of_no_name(row)
    } else {
        Some(row.column(0))
    }
}

// The same of a line that begins with `chain`, which has one name.
fn chain_misfit(row: Row<'_>) -> Option<usize> {
    if is_name(row.word(1)) {
        column_unless(row, 2, row.word(2).is_empty())
    } else {
        Some(row.column(1))
    }
}

fn column_unless(row: Row<'_>, place: usize, fits: bool) -> Option<usize> {
    if fits { None } else { Some(row.column(place)) }
}

// The column of the first word after the first that is no name, or where a name is missing.
fn column_of_no_name(row: Row<'_>) -> Option<usize> {
    if row.word(1).is_empty() {
        return Some(row.column(1));
    }
    let mut column = row.column(1);
    for _ in 0..row.text.len() {
        let (start, word) = row.word_from(column);
        if word.is_empty() {
            return None;
        }
        if !is_name(word) {
            return Some(start);
        }
        column = start.saturating_add(word.len());
    }
    None
}

// The word at a column doesn't fit, or is missing.
fn say_misfit(page: &mut Page, name: &str, row: Row<'_>, column: usize) {
    quote_row(page, name, row, Some(column));
    let (start, word) = row.word_from(column);
    if word.is_empty() {
        say_missing(page);
    } else if start == row.column(0) {
        page.tell_word(NO_LINE, word);
    } else {
        say_no_name(page, word);
    }
}

fn say_missing(page: &mut Page) {
    page.tell("a word is missing here");
    page.tell(NAMES);
}

fn say_no_name(page: &mut Page, word: &[u8]) {
    page.tell_word(MISFIT, word);
    page.tell(if is_number(word) { NUMBERS } else { NAMES });
}

fn is_number(word: &[u8]) -> bool {
    for byte in word {
        if !byte.is_ascii_digit() {
            return false;
        }
    }
    true
}

// A line that has a form is in a wrong place.
fn say_place(page: &mut Page, text: Lines<'_>, row: Row<'_>, place: usize) {
    quote_row(page, text.name, row, None);
    if row.begins_with(b"branch") {
        page.tell(NO_STAGE_YET);
    } else if last_before(text.rows, place, b"chain").is_none() {
        page.tell(NO_CHAIN_YET);
    } else {
        say_no_branch(page, text, place);
    }
}

// A stage without a branch. The line after it may begin as a branch without being one.
fn say_no_branch(page: &mut Page, text: Lines<'_>, place: usize) {
    page.tell(NO_BRANCH);
    let row = row_at(rows_behind(text.rows, place), 0);
    if row.begins_with(b"branch")
        && let Some(column) = column_of_no_name(row)
    {
        say_misfit(page, text.name, row, column);
    }
}

// The policy has no such chain, or the chain has no such function.
fn unknown_name(page: &mut Page, text: Lines<'_>, policy: Lines<'_>, line: u32) {
    let place = place_of(text.rows, line);
    let row = row_at(text.rows, place);
    if row.begins_with(b"chain") {
        unknown_chain(page, text, policy, row);
    } else if let Some(chain) = last_before(text.rows, place, b"chain") {
        unknown_function(page, text, policy, row, chain.word(1));
    }
}

fn unknown_chain(page: &mut Page, text: Lines<'_>, policy: Lines<'_>, row: Row<'_>) {
    quote_word(page, text.name, row, 1, NO_CHAIN);
    say_names(page, policy.rows, b"chain");
}

fn unknown_function(
    page: &mut Page,
    text: Lines<'_>,
    policy: Lines<'_>,
    row: Row<'_>,
    chain: &[u8],
) {
    let here = chain_named(policy.rows, chain);
    let (start, word) = undeclared(row, here);
    quote_row(page, text.name, row, Some(start));
    page.tell_word(NO_FUNCTION, chain);
    page.word(word);
    say_names(page, here, b"fn");
    say_elsewhere(page, policy, word);
}

// The line of another chain that declares a function of this name, where there is one.
fn say_elsewhere(page: &mut Page, policy: Lines<'_>, function: &[u8]) {
    if let Some(row) = declaring(policy.rows, function) {
        page.tell(ELSEWHERE);
        quote_row(page, policy.name, row, None);
    }
}

// The first word after the first that these lines don't declare as a function.
fn undeclared<'a>(row: Row<'a>, rows: &[Row<'_>]) -> (usize, &'a [u8]) {
    let mut column = row.column(1);
    for _ in 0..row.text.len() {
        let (start, word) = row.word_from(column);
        if declaring(rows, word).is_none() {
            return (start, word);
        }
        column = start.saturating_add(word.len());
    }
    row.word_from(column)
}

// A chain or a function is listed a second time.
fn twice(page: &mut Page, text: Lines<'_>, line: u32) {
    let place = place_of(text.rows, line);
    let row = row_at(text.rows, place);
    if row.begins_with(b"chain") {
        listed_twice(page, text, row);
    } else {
        stands_twice(page, text.name, row, since_chain(&text.rows[..place]));
    }
}

fn listed_twice(page: &mut Page, text: Lines<'_>, row: Row<'_>) {
    quote_word(page, text.name, row, 1, LISTED);
    quote_row(page, text.name, line_of_chain(text.rows, row.word(1)), None);
}

// The first word of a branch that is in these lines before it, or before it in its own line.
fn stands_twice(page: &mut Page, name: &str, row: Row<'_>, before: &[Row<'_>]) {
    let (start, word) = row.word_from(column_of_repeated(row, before));
    quote_row(page, name, row, Some(start));
    match holding(before, word) {
        Some((other, mark)) => {
            page.tell_word(STANDS, word);
            quote_row(page, name, other, Some(mark));
        }
        None => page.tell_word(STANDS_HERE, word),
    }
}

// The column of that word.
fn column_of_repeated(row: Row<'_>, before: &[Row<'_>]) -> usize {
    let mut column = row.column(1);
    for _ in 0..row.text.len() {
        let (start, word) = row.word_from(column);
        if holding(before, word).is_some() || row.column_of(word) != Some(start) {
            return start;
        }
        column = start.saturating_add(word.len());
    }
    column
}

// The first of these lines that is a branch with a function, and the column of its name.
fn holding<'a>(rows: &[Row<'a>], name: &[u8]) -> Option<(Row<'a>, usize)> {
    for row in rows {
        if row.begins_with(b"branch")
            && let Some(column) = row.column_of(name)
        {
            return Some((*row, column));
        }
    }
    None
}

// A chain with a function that rewrites packets whole.
fn whole_chain(page: &mut Page, text: Lines<'_>, policy: Lines<'_>, line: u32) {
    let row = row_of(text.rows, line);
    quote_row(page, text.name, row, Some(row.column(1)));
    if let Some(function) = whole_function(chain_named(policy.rows, row.word(1))) {
        page.tell(WHOLE);
        quote_row(page, policy.name, function, None);
        page.tell(LEFT_OUT);
    }
}

// The first of these lines that declares a function that rewrites packets whole.
fn whole_function<'a>(rows: &[Row<'a>]) -> Option<Row<'a>> {
    for row in rows {
        if row.begins_with(b"fn") && is_whole(row.word(2)) {
            return Some(*row);
        }
    }
    None
}

fn is_whole(kind: &[u8]) -> bool {
    match Kind::named(kind) {
        Some(kind) => profile(kind).whole,
        None => false,
    }
}

// A function of a listed chain is in no branch.
fn missing(page: &mut Page, text: Lines<'_>, policy: Lines<'_>, chain: u32, function: u32) {
    let here = chain_at(policy.rows, chain);
    let row = function_at(here, function);
    let listed = line_of_chain(text.rows, row_at(here, 0).word(1));
    quote_row(page, text.name, listed, None);
    page.tell_word(MISSING, row.word(1));
    quote_row(page, policy.name, row, None);
    page.tell(INTO_BRANCH);
}

// The names of a chain and of two of its functions.
#[derive(Clone, Copy)]
struct Pair<'a> {
    chain: &'a [u8],
    first: &'a [u8],
    second: &'a [u8],
}

fn pair_of<'a>(policy: Lines<'a>, chain: u32, first: u32, second: u32) -> Pair<'a> {
    let here = chain_at(policy.rows, chain);
    Pair {
        chain: row_at(here, 0).word(1),
        first: function_at(here, first).word(1),
        second: function_at(here, second).word(1),
    }
}

// Quotes the lines of two functions, that of the first in the chain first, or their one line.
fn quote_pair(page: &mut Page, text: Lines<'_>, pair: Pair<'_>) {
    let here = chain_named(text.rows, pair.chain);
    if let Some((row, mark)) = holding(here, pair.first) {
        quote_row(page, text.name, row, Some(mark));
        quote_other(page, text.name, row, holding(here, pair.second));
    }
}

// Quotes another line than this one.
fn quote_other(page: &mut Page, name: &str, row: Row<'_>, other: Option<(Row<'_>, usize)>) {
    if let Some((other, mark)) = other
        && other.number != row.number
    {
        quote_row(page, name, other, Some(mark));
    }
}

fn out_of_order(page: &mut Page, text: Lines<'_>, pair: Pair<'_>) {
    quote_pair(page, text, pair);
    page.tell_word(ORDER, pair.first);
    page.word(pair.second);
}

fn forbidden(page: &mut Page, text: Lines<'_>, pair: Pair<'_>, action: Action) {
    quote_pair(page, text, pair);
    let told = match action {
        Action::Drop => DROPS,
        _ => WRITES,
    };
    page.tell_word(told, pair.first);
    page.word(pair.second);
    page.tell_word(BEHIND, pair.second);
    page.word(pair.first);
    page.word(pair.second);
}

// The line that lists a chain, or an empty one.
fn line_of_chain<'a>(rows: &[Row<'a>], name: &[u8]) -> Row<'a> {
    row_at(chain_named(rows, name), 0)
}

// The lines of the first chain of this name, with that of the chain.
fn chain_named<'r, 'a>(rows: &'r [Row<'a>], name: &[u8]) -> &'r [Row<'a>] {
    for (place, row) in rows.iter().enumerate() {
        if row.names(b"chain", name) {
            return up_to_chain(&rows[place.min(rows.len())..]);
        }
    }
    &rows[rows.len()..]
}

// The line of the function with this number, counted from 0, or an empty one.
fn function_at<'a>(rows: &[Row<'a>], number: u32) -> Row<'a> {
    let mut functions = 0u32;
    for row in rows {
        if row.begins_with(b"fn") {
            if functions == number {
                return *row;
            }
            functions = functions.saturating_add(1);
        }
    }
    Row::new(0, b"")
}
