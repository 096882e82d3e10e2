#![tactic(auto)]

// The hardened program and the demands on it: the definitions and their theorems. The code is crate `hardener`.
