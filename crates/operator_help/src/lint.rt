//! What is odd in a policy without fault.

use crate::lines::{Row, row_of};
use crate::page::Page;
use crate::policy::PolicyText;
use crate::quotes::quote_row;
use policy_lint::Finding;

const ONE_ODD_THING: &str = "1 odd thing in {}: nfp plan tells it";

const ODD_THINGS: &str = "{} odd things in {}: nfp plan tells them";

/// Adds a line that says how many findings there are for the policy of this name, if there are any.
pub fn count(page: &mut Page, name: &str, findings: usize) {
    if findings == 1 {
        page.tell(ONE_ODD_THING);
        page.name(name);
    } else if findings > 1 {
        page.tell(ODD_THINGS);
        page.number(findings as u64);
        page.name(name);
    }
}

/// Adds each finding: its line, what it means, and how to say it otherwise.
pub fn findings(page: &mut Page, policy: PolicyText<'_>, found: &[Finding]) {
    let rows = page.rows(policy.text);
    tell_findings(page, policy.name, &rows, found);
}

fn tell_findings(page: &mut Page, name: &str, rows: &[Row<'_>], found: &[Finding]) {
    for finding in found {
        quote_row(page, name, row_of(rows, finding.line()), None);
        page.tell(finding.text());
        say_other(page, finding.other());
    }
}

// Puts the other line into its place, where there is one.
fn say_other(page: &mut Page, other: Option<u32>) {
    if let Some(line) = other {
        page.number(u64::from(line));
    }
}
