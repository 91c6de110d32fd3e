//! What the large sample is: its script, its commands, and its line. No program.
#![tactic(auto)]
