// Specifications only: what the writer lays out is read as the same lists, and what is read is written byte for byte.
#![tactic(auto)]
