//! Which pages an edit fills again: the rows that it exchanges, and what stays before and behind them. Definitions and laws
//! alone, no program.
#![tactic(auto)]
