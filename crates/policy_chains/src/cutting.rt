//! Cuts a chain into parts, from its first function on.

use crate::named::NamedFunction;
use crate::part::ChainPart;
use net_functions::Made;
use policy_text::Name;
use std::alloc::{AllocError, Global};

/// A chain that is cut up to some function: the complete parts, and the functions after them, which belong to the next
/// part.
#[derive(Drop)]
pub struct Cutting {
    pub parts: Vec<ChainPart>,
    pub waiting: Vec<NamedFunction>,
}

impl Cutting {
    ghost use Rattle.std.specs.Prelude.{◌≡◌, ◌++◌, ◌∷◌, [], IfOk};
    ghost use Rattle.policy_chains.specs.Cutting.{GoesOn, closed, with_made};
    ghost use Rattle.policy_chains.specs.Parts.{part_of, parts_of};

    /// A chain without functions.
    pub fn new(alloc: Global) -> Cutting
        ensures parts { result.parts.items ≡ [] }
        ensures waiting { result.waiting.items ≡ [] }
    {
        Cutting {
            parts: Vec::new(alloc),
            waiting: Vec::new(alloc),
        }
    }

    /// The chain with one more function, which has this name. A function that rewrites packets whole is a part by
    /// itself.
    pub fn with(self, alloc: Global, name: Name, made: Made) -> Result<Cutting, AllocError>
        ensures { IfOk result (λ cutting. GoesOn self cutting (with_made name made)) }
    {
        match made {
            Made::Function(function) => self.with_function(NamedFunction { name, function }),
            Made::Encap(tunnel) => self.with_tunnel(alloc, ChainPart::Encap(tunnel)),
            Made::Decap(tunnel) => self.with_tunnel(alloc, ChainPart::Decap(tunnel)),
        }
    }

    // The chain with one more function, which sees a packet's fields.
    fn with_function(self, function: NamedFunction) -> Result<Cutting, AllocError>
        ensures parts { IfOk result (λ cutting. cutting.parts.items ≡ self.parts.items) }
        ensures waiting { IfOk result (λ cutting. cutting.waiting.items ≡ self.waiting.items ++ function ∷ []) }
    {
        let Cutting { parts, mut waiting } = self;
        waiting.push(function)?;
        Ok(Cutting { parts, waiting })
    }

    // The chain with one more part, after which another one begins.
    fn with_tunnel(self, alloc: Global, tunnel: ChainPart) -> Result<Cutting, AllocError>
        ensures parts { IfOk result (λ cutting. parts_of cutting.parts.items ≡ (parts_of self.parts.items ++ closed self.waiting.items) ++ part_of tunnel ∷ []) }
        ensures waiting { IfOk result (λ cutting. cutting.waiting.items ≡ []) }
    {
        let mut parts = self.into_parts()?;
        parts.push(tunnel)?;
        Ok(Cutting {
            parts,
            waiting: Vec::new(alloc),
        })
    }

    /// The parts of the whole chain.
    pub fn into_parts(self) -> Result<Vec<ChainPart>, AllocError>
        ensures { IfOk result (λ parts. parts_of parts.items ≡ parts_of self.parts.items ++ closed self.waiting.items) }
    {
        let Cutting { mut parts, waiting } = self;
        if !waiting.is_empty() {
            parts.push(ChainPart::Functions(waiting))?;
        }
        Ok(parts)
    }
}
