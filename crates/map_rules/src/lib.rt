// No code yet: the definitions of addresses, of map order and of the whole map's rules.
#![tactic(auto)]
