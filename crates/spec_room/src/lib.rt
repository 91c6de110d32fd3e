//! A room, where several seats work at one desk: changes of a text, where a range stands after them, what a room is and what
//! becomes of it by a seat's command. Definitions and laws about them, no program.
#![tactic(auto)]
