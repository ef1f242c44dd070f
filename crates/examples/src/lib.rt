// The examples of the paper, computed from the definitions (specs/).
#![tactic(auto)]
