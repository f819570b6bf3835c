// What the programs share (document 01, "The listing program"; crates list and check_table): files and numbers by argument (papers), and
// what is told of a refusal (tellings). Input and output, and nothing else: no contract can say what is read or written, so a function here is proved safe
// and ending, and to read no more than it may (`papers::read` and `read_whole`, which std's `take` stops: to keep no more). Relies on crate figures for text,
// on std for memory, input and output.

#![tactic(auto)]

pub mod papers;
pub mod tellings;
