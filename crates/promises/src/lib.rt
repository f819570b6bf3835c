// Theorems over the definitions of crates/meaning alone. No code: everything stands in specs/.

#![tactic(auto)]
