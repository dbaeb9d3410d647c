//! The volume table: which volumes stand on a cartridge, as the slots of segment 2 tell it.
#![tactic(auto)]

mod entry;
mod fault;
mod leaving_out;
mod reading;
mod sets_tried;
mod showing;
mod slots;
mod table;
mod writing;

pub use entry::Entry;
pub use fault::{TableFault, TableFull};
pub use leaving_out::{last_used, trials};
pub use reading::TableReading;
pub use sets_tried::Trials;
pub use slots::{SIGNATURE, SLOTS, TABLE_SEGMENT, entry_at, slot_at};
pub use table::Table;
