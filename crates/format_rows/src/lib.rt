//! Worked values of the formats and of the code, as tests: a module for each library that has them.
#![tactic(auto)]

#[cfg(test)]
mod addresses;
#[cfg(test)]
mod dump_headers;
#[cfg(test)]
mod field;
#[cfg(test)]
mod headers;
#[cfg(test)]
mod lists_read;
#[cfg(test)]
mod locating;
#[cfg(test)]
mod maps;
#[cfg(test)]
mod maps_read;
#[cfg(test)]
mod maps_written;
#[cfg(test)]
mod parity;
#[cfg(test)]
mod solving;
#[cfg(test)]
mod tables;
