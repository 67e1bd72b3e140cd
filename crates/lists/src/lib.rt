// No code: lists, counts, searches and bits, and their laws.
#![tactic(auto)]
