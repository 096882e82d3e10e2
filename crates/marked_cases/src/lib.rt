#![tactic(auto)]

// The cases that document 01 marks P, each a theorem over a whole table of bytes: see specs/.
