//! A link is made with its two ends, and ended with both.
ghost use Rattle.std.specs.Prelude.{◌≡◌, ◌<◌, ◌++◌, [], List, length, IfOk};
ghost use Rattle.ruled_links.specs.Fitting.{EachFits};

use crate::fit::{LinkDue, LinkFit};
use crate::putter::Putter;
use crate::rule::{Joined, Opened, Queue, Whole};
use crate::taker::Taker;
use std::alloc::{AllocError, Global};
use std::sync::Arc;

/// The number of messages that were put into a link, and the number that were taken.
#[derive(Clone, Copy, PartialEq, Eq, Debug)]
pub struct Counts {
    pub put: u64,
    pub taken: u64,
}

/// Makes a link for this number of messages in all, and returns its two ends. The only error is that memory runs out.
///
/// `D.due` is what is due on it. A caller makes the link in a function that is generic in `D` and requires what `D.due`
/// is. It calls this function with `Brand` for `D`, and its proof picks the list.
pub fn link<T: LinkFit + Drop, D: LinkDue<T>>(
    alloc: Global,
    capacity: u32,
) -> Result<(Putter<T>, Taker<T>), AllocError>
    requires some { 0 < capacity }
    ensures one_link { IfOk result (λ ends. ends.1.link ≡ ends.0.link) }
    ensures capacity { IfOk result (λ ends. ends.0.capacity ≡ capacity) }
    ensures putter_due { IfOk result (λ ends. ends.0.due ≡ D.due) }
    ensures taker_due { IfOk result (λ ends. ends.1.due ≡ D.due) }
    ensures nothing_put { IfOk result (λ ends. ends.0.put ≡ []) }
    ensures nothing_taken { IfOk result (λ ends. ends.1.taken ≡ []) }
{
    let (made, mut pass) = Queue::<T>::ruled(alloc, capacity as usize)?;
    let queue = Arc::new(alloc, made)?;
    let theirs = Arc::try_clone(&queue)?;
    let taking = queue.another::<Opened<T, D>>(&mut pass);
    Ok((
        Putter {
            queue,
            pass,
            capacity,
            puts: 0,
        },
        Taker {
            queue: theirs,
            pass: taking,
            takes: 0,
        },
    ))
}

/// Ends a link, and returns the numbers of messages that were put and taken. Those that weren't taken are dropped. It
/// allocates nothing.
pub fn finish<T: LinkFit + Drop>(putter: Putter<T>, taker: Taker<T>) -> Counts
    requires one_link { taker.link ≡ putter.link }
    ensures put { result.put ≡ length putter.put }
    ensures taken { result.taken ≡ length taker.taken }

    // What was taken is the front of what was put, in its order.
    ensures in_order { (rest : List T) × (putter.put ≡ taker.taken ++ rest) }

    // Each message that was put fits the due one of its place.
    ensures fits { EachFits T.fits putter.due putter.put }
{
    let Putter {
        queue,
        mut pass,
        capacity: _,
        puts,
    } = putter;
    let Taker {
        queue: _,
        pass: other,
        takes,
    } = taker;
    queue.absorb::<Joined>(&mut pass, other);
    queue.learn_as::<Whole<T>>(&mut pass);
    Counts {
        put: puts,
        taken: takes,
    }
}
