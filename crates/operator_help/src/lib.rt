//! Messages for an operator, beside the line of the program: what is wrong, where, and what to do.
//!
//! A [`Page`] is a text for standard error, line by line. The other calls add to a page what belongs to a fault: the forms of the
//! commands ([`usage`]), the line of a policy with its fault marked, the forms that such a line may have and the word that doesn't
//! fit ([`policy`]), the same of a text of graphs ([`graph`]), what is odd in a policy without fault ([`lint`]), what a file is that is no capture, or whose packets have no Ethernet header, and how to get one ([`capture`]),
//! and why the system refuses a file ([`files`]). The forms are texts, which are both shown and compared with.
//!
//! Bytes of files are shown escaped, and long lines cut. If there is no memory for all of a page, it is empty, and so no call that adds to it
//! returns an error. That each call returns and is safe is proved, and nothing else.
#![tactic(auto)]

pub mod capture;
pub mod capture_ng;
pub mod files;
mod forms;
mod given;
pub mod graph;
mod hints;
mod lines;
pub mod lint;
mod page;
pub mod policy;
mod quotes;
mod release;
mod settings;
mod shown;
pub mod usage;
mod values;
mod words;

pub use page::Page;
pub use release::VERSION;
