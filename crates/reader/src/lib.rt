// The language of a crew's sheet: what each of its lines says.
#![tactic(auto)]

pub mod questions;
pub mod rulings;
mod scan;
pub mod text;
pub mod words;
