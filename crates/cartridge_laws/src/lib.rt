//! Why it holds of any cartridge: what its segments say, and what formatting, mounting, settling, changing and appending
//! leave, done or stopped. Each law is the contract of a function that does nothing; no code stands here.
#![tactic(auto)]

pub mod appending;
pub mod changes;
pub mod formatting;
pub mod fresh_headers;
pub mod headers;
pub mod maps;
pub mod mounting;
pub mod one_loss;
pub mod saying;
pub mod tables;
pub mod worked_values;
pub mod wrong_table;
