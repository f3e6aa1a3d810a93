// Specifications only: the load of a starting number, and its laws.
#![tactic(auto)]
