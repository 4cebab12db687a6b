// A tree's nodes, level by level, as single ones: definitions and laws alone.
#![tactic(auto)]
