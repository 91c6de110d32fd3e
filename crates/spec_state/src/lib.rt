//! The state of a desk, its headings and its sheets, what becomes of a script that is printed, and what locks and rounds leave of the
//! sheets. Definitions and laws about them, no program.
#![tactic(auto)]
