//! Worked rows of the result, by the definitions alone.
//!
//! Each row of `proofs/` computes what is due for words, a policy and a capture that are written out there, and compares
//! it with values from outside: classic captures (`Rows`, `CountRows`), pcapng (`NgRows`), hand-written graphs
//! (`GraphRows`), tunnels (`TunnelRows`). [`the_demo_policy_has_no_fault`] says that a demo has chains to run.
#![tactic(auto)]

mod laws;

pub use laws::the_demo_policy_has_no_fault;
