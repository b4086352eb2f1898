//! The words in which the checker of games is written, without its laws. There is no code here.
#![tactic(auto)]
