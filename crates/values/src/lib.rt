#![tactic(auto)]

pub mod mode;
