#![tactic(auto)]

pub mod access;
pub mod fault;
pub mod theorems;
