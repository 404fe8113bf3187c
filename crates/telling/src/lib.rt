// Calls of a manager of any kind, each told on a line with its answer.

#![tactic(auto)]

pub mod answers;
pub mod lines;
pub mod scenes;
pub mod teller;
