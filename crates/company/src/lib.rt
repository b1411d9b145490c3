#![tactic(auto)]

pub mod isolated;
pub mod wear;
pub mod worn;
