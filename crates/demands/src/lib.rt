// No code: the third demand, of all lawful rows and of the map of every accepted text, over the definitions that the contracts cite; that
// no access has a part only of a field that software changes; and the classroom sums.
#![tactic(auto)]
