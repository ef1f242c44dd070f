// Request 12, new staff numbers and the same rules: definitions and theorems (specs/).
#![tactic(auto)]
