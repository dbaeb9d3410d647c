//! Why it holds of any run: what words and inputs are, what restoring and scrubbing give and leave, and what the commands,
//! scripts and generated runs make of a cartridge, done or stopped. Each law is the contract of a function that does
//! nothing; no code stands here.
#![tactic(auto)]

pub mod checking;
pub mod commands;
pub mod copying;
pub mod deep_scrubbing;
pub mod generated;
pub mod intact;
pub mod lives;
pub mod mounted;
pub mod promises;
pub mod restoring;
pub mod scripts;
pub mod scrubbing;
pub mod texts;
pub mod trains;
pub mod volume_acts;
pub mod volume_pieces;
pub mod worked_values;
