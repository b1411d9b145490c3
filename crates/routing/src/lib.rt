#![tactic(auto)]

mod board;
mod follow;
pub mod place;
pub mod refusal;
pub mod route;
mod search;
pub mod survey;
mod task;
