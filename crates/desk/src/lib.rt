#![tactic(auto)]

pub mod ask;
pub mod by_name;
pub mod look;
pub mod rules;
