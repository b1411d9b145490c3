#![tactic(auto)]

pub mod get_in;
pub mod refusal;
pub mod rig;
pub mod run;
pub mod show;
pub mod theorems;
