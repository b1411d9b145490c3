#![tactic(auto)]

pub mod command;
pub mod read;
pub mod refusal;
pub mod theorems;
pub mod write;
