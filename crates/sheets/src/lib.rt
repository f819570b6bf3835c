// Sheets of document 01, read, written and made into plants (sheets): their floats (floats) and rooms (rooms), the equations in f64 (equations), whole
// numbers of what these give (wholes), the widened bands (bands), and the plant (made). What it all means stands in crates/meaning, page Sheets.

#![tactic(auto)]

mod bands;
mod equations;
mod floats;
mod made;
mod refusals;
mod rooms;
pub mod sheets;
mod wholes;
