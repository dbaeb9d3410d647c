//! Why what is salvaged of an exported cartridge agrees with the cartridge. Each law is the contract of a function that does
//! nothing; no code stands here.
#![tactic(auto)]

pub mod cells;
pub mod listing;
pub mod uncompressed;
pub mod volumes;
