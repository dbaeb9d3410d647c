//! Copies of one cartridge's volumes to another, as tests: what they answer and print, and that the next one goes on
//! where a tape that fails broke one off.
#![tactic(auto)]

#[cfg(test)]
mod cartridges;
#[cfg(test)]
mod copies;
#[cfg(test)]
mod runs;
#[cfg(test)]
mod stops;
