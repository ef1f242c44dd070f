// Groups in scratch: what its words stand for while groups are merged, and at the end.
#![tactic(auto)]
