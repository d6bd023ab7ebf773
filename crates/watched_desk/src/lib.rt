//! A desk that is watched, and what a watcher makes of what it sees.
//!
//! [`Watched`] is a desk around a desk: each call goes to the desk inside, and its result is returned unchanged. A
//! [`Watcher`] is informed of the call. The slots that a watched desk shows are those of the desk inside, so what is
//! proved for any desk holds for it, whatever the watcher does.
//!
//! There are two watchers. [`Seen`] keeps what a message to the operator needs: the names, the text of the policy and
//! the first bytes of the capture, which can't be read again if they come from a pipe. [`Progress`] counts the bytes of
//! the capture that pass, and shows on standard error how far a long run is, in one line that is overwritten. [`Watch`]
//! is both of them.
//!
//! Only the slots are promised. What a watcher keeps or shows is tested and not proved.
#![tactic(auto)]

mod amount;
mod block_count;
mod progress;
mod record_count;
mod seen;
mod watch;
mod watched;

pub use amount::Amount;
pub use progress::Progress;
pub use record_count::RecordCount;
pub use seen::Seen;
pub use watch::Watch;
pub use watched::{Watched, Watcher};
