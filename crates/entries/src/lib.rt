#![tactic(auto)]

// The six entries as definitions of all memory at exit, what they promise, and demand 3 for their calls. The code is crate `flow` and what it stands on.
