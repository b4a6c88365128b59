// No code: the law that the judge's first fault in text order is the one of the smallest place, then of the smallest number.
#![tactic(auto)]
