//! The machine of a desk: its memory, what each command makes of it, and what it promises; and what the outline of a script is:
//! sections, synopses, scenes, and the cast. Definitions and laws about them, no program.
#![tactic(auto)]
