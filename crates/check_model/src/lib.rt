// The six clauses of the checker on words, and that they are the definition's: no code.
#![tactic(auto)]
