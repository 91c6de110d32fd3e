//! Lists of printed sheets, read from bytes, and their collation; the revision packet of a state, and the law that it brings the
//! sheets of a round's opening up to date. Definitions and laws about them, no program.
#![tactic(auto)]
