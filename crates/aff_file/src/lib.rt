// A finished file by what is in it, and the tree of a file by its own tables: definitions and theorems, no code.
#![tactic(auto)]
