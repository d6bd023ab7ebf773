//! What a message to the operator needs to know of a run.

use crate::watched::Watcher;
use nfp_outside::Slot;
use std::alloc::Global;

/// The number of first bytes of a capture that are kept.
const FRONT: usize = 64;

/// The names of a run, the text of its policy and of its graphs, and the first bytes of its capture. If there was no
/// memory for one of them, it counts as not seen.
#[derive(Drop)]
pub struct Seen {
    alloc: Global,
    policy_name: Option<String>,
    capture_name: Option<String>,
    out_name: Option<String>,
    report_name: Option<String>,
    graph_name: Option<String>,
    policy: Option<Vec<u8>>,
    graph: Option<Vec<u8>>,
    front: Vec<u8>,
}

impl Seen {
    /// A record in which nothing was seen yet.
    pub fn new(alloc: Global) -> Self {
        Seen {
            alloc,
            policy_name: None,
            capture_name: None,
            out_name: None,
            report_name: None,
            graph_name: None,
            policy: Some(Vec::new(alloc)),
            graph: Some(Vec::new(alloc)),
            front: Vec::new(alloc),
        }
    }

    /// The name with which a slot was to be attached, if there was such a call.
    pub fn name(&self, slot: Slot) -> Option<&str> {
        let name = match slot {
            Slot::Policy => &self.policy_name,
            Slot::Capture => &self.capture_name,
            Slot::Out => &self.out_name,
            Slot::Report => &self.report_name,
            Slot::Graph => &self.graph_name,
            Slot::Note => return None,
        };
        match name {
            Some(name) => Some(name.as_str()),
            None => None,
        }
    }

    /// The part of the policy that was read.
    pub fn policy(&self) -> Option<&[u8]> {
        match &self.policy {
            Some(bytes) => Some(bytes.as_slice()),
            None => None,
        }
    }

    /// The part of the text of graphs that was read.
    pub fn graph(&self) -> Option<&[u8]> {
        match &self.graph {
            Some(bytes) => Some(bytes.as_slice()),
            None => None,
        }
    }

    /// The first bytes of what was read of the capture, at most 64.
    pub fn front(&self) -> &[u8] {
        &self.front
    }

    // Keeps the first bytes of the capture.
    fn keep_front(&mut self, bytes: &[u8]) {
        if self.front.len() < FRONT {
            let count = bytes.len().min(FRONT - self.front.len());
            let _ = self.front.extend_from_slice(&bytes[..count]);
        }
    }
}

impl Watcher for Seen {
    fn attaching(&mut self, slot: Slot, name: &str) {
        let name = String::from_str(self.alloc, name).ok();
        match slot {
            Slot::Policy => self.policy_name = name,
            Slot::Capture => self.capture_name = name,
            Slot::Out => self.out_name = name,
            Slot::Report => self.report_name = name,
            Slot::Graph => self.graph_name = name,
            Slot::Note => {}
        }
    }

    fn passed(&mut self, slot: Slot, bytes: &[u8]) {
        match slot {
            Slot::Policy => keep(&mut self.policy, bytes),
            Slot::Graph => keep(&mut self.graph, bytes),
            Slot::Capture => self.keep_front(bytes),
            _ => {}
        }
    }

    fn writing(&mut self, _slot: Slot) {}
}

// Appends to a text, or drops the whole text if memory runs out.
fn keep(text: &mut Option<Vec<u8>>, bytes: &[u8]) {
    if let Some(kept) = text
        && kept.extend_from_slice(bytes).is_err()
    {
        *text = None;
    }
}
