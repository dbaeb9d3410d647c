//! Why a check names no right sector of the volume table where appends were stopped. Each law is the contract of a function
//! that does nothing; no code stands here.
#![tactic(auto)]

pub mod naming;
