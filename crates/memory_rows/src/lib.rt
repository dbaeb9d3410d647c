//! Worked calls of the outside, in memory with chosen failures and in files, and of what takes its bytes into
//! sectors and out of them, as tests.
#![tactic(auto)]

#[cfg(test)]
mod disks;
#[cfg(test)]
mod files;
#[cfg(test)]
mod filling;
#[cfg(test)]
mod openings;
#[cfg(test)]
mod several;
#[cfg(test)]
mod streams;
#[cfg(test)]
mod tapes;
#[cfg(test)]
mod values;
