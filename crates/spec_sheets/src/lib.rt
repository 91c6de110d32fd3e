//! What stands in a text: its elements laid out in rows, which speakers go on, and what a page shows of each row; the rows of a page
//! below its header, headers, and the bytes of a sheet. Definitions and laws about them, no program.
#![tactic(auto)]
