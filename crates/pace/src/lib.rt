//! Decides how the bursts of a chain run: on several threads, or on one.
//!
//! Whether threads pay depends on the cost of the steps of a chain, on the packets and on the machine, and is known
//! only once it was tried. A [`Pace`] keeps the time that a packet takes in either way, as measured on the bursts so
//! far. It returns the way of the next burst and the greatest number of its packets ([`Pace::most`]), so that the trial
//! of a way isn't longer for a long burst than for a short one.
//!
//! A way is judged by samples of at least 1,024 packets, since one burst of a few packets may be lucky. Each round begins
//! with one burst on threads, of at most 1,024 packets, and with 1,024 packets on one thread. If one thread takes less
//! than four microseconds a packet, packets are light, and passing them from thread to thread costs more than threads
//! save. If threads took more than four times as long, as for bursts of one packet or a thousand nodes, they are hopeless
//! too. In both cases no more bursts try them. Otherwise the bursts of 8,192 packets run on threads and those of 2,048
//! on one. The next 514,048 packets run on threads if these save a tenth of the time, and on one thread if not, since
//! threads take processors that others may need. Rounds begin anew, since packets and the machine change; but while
//! packets are light, threads are not tried again.
//!
//! Threads are left at once, in every part but the first, if its packets took more than twice the time of one thread,
//! and more than twice the time of 1,024 packets. One thread then takes the rest of the round.
//!
//! The fate of a packet never depends on a pace. The contracts promise only the choice, by `lead_of` of
//! `specs/Pacing.antt`, and what is remembered. Left out: the code that runs the bursts, and the clock.
#![tactic(auto)]

mod pace;
mod way;

pub use pace::{Lead, Pace, Part};
pub use way::Way;
