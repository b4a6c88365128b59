// No code: the names of an accepted text are names of document 01, its rows are lawful and their fields keep 17, what is
// read back from them is the text's map, and the first fault is the smallest.
#![tactic(auto)]
