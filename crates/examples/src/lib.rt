// The definitions of crates/meaning computed on inputs beyond document 01's lines, against the second program's answers. No code.

#![tactic(auto)]
