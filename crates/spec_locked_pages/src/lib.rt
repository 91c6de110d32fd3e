//! The law of locked pages: what edits leave of the sheets of page records. Definitions and laws alone, no program.
#![tactic(auto)]
