//! The segments in front of a cartridge's volumes: the header in force and the volume table, read through the host; and the
//! table settled, and written with one entry more (the volume table and its settling are this project's profile).
#![tactic(auto)]

mod header_reader;
mod learning;
mod refreshing;
mod settling;
mod table_reader;
mod table_writer;
mod volume_reader;

pub use header_reader::read_header;
pub use learning::{Learnt, enter_primary, learn};
pub use refreshing::{add_entry, settle_again};
pub use settling::settle;
pub use table_reader::read_table;
pub use table_solve::{Unread, data_sectors};
pub use volume_reader::read_volumes;
