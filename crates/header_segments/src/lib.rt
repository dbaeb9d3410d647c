//! The header, which says of a cartridge how long it is, what it is called and which sectors are bad.
#![tactic(auto)]

mod fault;
mod fields;
mod header;
mod reading;
mod writing;

pub use fault::HeaderFault;
pub use fields::SIGNATURE;
pub use header::Header;
pub use reading::decode;
pub use writing::encode;
