//! The register: up to sixteen layouts of one letter kind, and the calls on them.
#![tactic(auto)]

pub mod calls;
pub mod laws;
pub mod refusal;
pub mod register;
