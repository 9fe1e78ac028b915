//! What a tree of nodes is: its rows, from the top one to the leaves, and their laws.
#![tactic(auto)]
