//! Commands over a source, a sink or a tape that fails, as tests: what they answer, what was printed, and what is left.
//! Scripts and an append over inputs that end early or never. Commands in working objects that their caller made.
#![tactic(auto)]

#[cfg(test)]
mod appends;
#[cfg(test)]
mod faults;
#[cfg(test)]
mod pulses;
#[cfg(test)]
mod ready;
#[cfg(test)]
mod runs;
#[cfg(test)]
mod scripts;
#[cfg(test)]
mod streams;
#[cfg(test)]
mod units;
