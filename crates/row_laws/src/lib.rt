// No code: the rows of a map that keeps the ranges and the rules 12 to 15, 18 and 20 are lawful, and what is read back from them is that map.
#![tactic(auto)]
