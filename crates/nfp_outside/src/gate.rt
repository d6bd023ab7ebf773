// A gate, which each step of a function passes before it looks at its packet.

use std::sync::Wait;

/// A call before each step of a function. A test implements it to hold a thread at a place that it picks; a program
/// takes [`OpenGate`].
pub trait Gate {
    /// Called before each step of a function, with the number of the chain, from 0, the position of the function in its
    /// chain, from 1, and the number of the record in the capture, from 1.
    ///
    /// It changes nothing that a contract could describe. It may wait, so it need not return, and that is why it has no
    /// clause.
    fn pass<R: Wait>(&self, rt: &R, chain: u32, position: u32, number: u32);
}

/// A gate that is always open: `pass` returns at once.
#[derive(Clone, Copy, Debug)]
pub struct OpenGate;

impl Gate for OpenGate {
    fn pass<R: Wait>(&self, _rt: &R, _chain: u32, _position: u32, _number: u32) {}
}
