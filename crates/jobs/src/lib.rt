#![tactic(auto)]

pub mod job;
pub mod members;
pub mod relation;
pub mod set;
