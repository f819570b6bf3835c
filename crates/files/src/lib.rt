// Files of document 01, read and written: seven-bit numbers (numbers), lo with hi (spans), the rows of the table of refusals (refusals), lent buffers
// (buffers) and arrays (arrays), the sides of boxes (bounds), what plants and sheets begin with (beginnings), plants (plants).
// What they mean stands in crates/meaning; a file's parts are read by private modules (fields, headers, rows, modes), its bounds within the crate.

#![tactic(auto)]

pub mod arrays;
pub mod beginnings;
pub mod bounds;
pub mod buffers;
mod fields;
mod headers;
mod modes;
pub mod numbers;
pub mod plants;
pub mod refusals;
mod rows;
pub mod spans;
