//! Why what is told of a dump's segment depends on its cells alone, and worked values of the definitions of dumps. Each is the
//! contract of a function that does nothing; no code stands here.
#![tactic(auto)]

pub mod cells_alone;
pub mod worked_values;
