// The theory of mining, for code to cite: a group as four words, the search for the next pair, a rule's lines.
#![tactic(auto)]
