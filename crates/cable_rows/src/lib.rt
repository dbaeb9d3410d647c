//! The drive's vocabulary, the words and lines of the program, trains of pulses and recordings of the cable, as tests.
#![tactic(auto)]

#[cfg(test)]
mod gaps;
#[cfg(test)]
mod lines;
#[cfg(test)]
mod memory;
#[cfg(test)]
mod printing;
#[cfg(test)]
mod pulses;
#[cfg(test)]
mod recordings;
#[cfg(test)]
mod reports;
#[cfg(test)]
mod trains;
#[cfg(test)]
mod vocabulary;
#[cfg(test)]
mod volumes;
#[cfg(test)]
mod words;
