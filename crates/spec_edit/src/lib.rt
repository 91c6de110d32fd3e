//! What an edit leaves of a text: of its stanzas, of its elements, which keep their rows or are touched, and of its page starts.
//! Definitions and laws about them, no program.
#![tactic(auto)]
