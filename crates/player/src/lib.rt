#![tactic(auto)]

pub mod copy;
pub mod fault;
mod keeping;
mod listing;
pub mod play;
pub mod theorems;
