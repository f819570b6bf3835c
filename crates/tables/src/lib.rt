// Tables of document 01: the maker (makes), the checker (checks) and the controller's call (control); an accepted table in another form (relays; document
// 02, request 2026-01); and the first three of start files, which hold a table for each box of a chain (request 2026-03): start_makes, start_checks,
// start_control. The other modules are private to the crate: their functions ask something of a plant that was judged (`requires`), which only callers
// inside the crate can be asked to prove; what another crate may call has no `requires`.

#![tactic(auto)]

mod arrays;
mod boxes;
mod chains;
pub mod checks;
pub mod control;
mod division;
mod drafts;
mod finds;
mod frames;
mod headers;
mod images;
mod lengths;
mod levels;
mod limits;
pub mod makes;
mod modes;
mod parts;
mod refusals;
pub mod relays;
mod search;
pub mod start_checks;
pub mod start_control;
pub mod start_makes;
mod states;
mod steps;
mod tiles;
mod turns;
mod walks;
