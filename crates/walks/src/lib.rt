#![tactic(auto)]

pub mod by_pair;
pub mod by_point;
pub mod flat;
pub mod hand_overs;
pub mod kind;
pub mod labels;
pub mod refusal;
pub mod rule;
pub mod setting;
pub mod strain;
pub mod sums;
pub mod time;
pub mod walk;
