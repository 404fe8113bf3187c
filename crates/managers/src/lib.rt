#![tactic(auto)]

pub mod calls;
pub mod interface;
mod lent;
pub mod locking;
pub mod manager;
pub mod memory;
pub mod tables;
