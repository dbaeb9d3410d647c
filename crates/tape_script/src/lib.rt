//! Words, scripts, printed texts and the generator of `tape`. No call takes memory.
#![tactic(auto)]

mod date;
mod line;
mod lines;
mod made;
mod number;
mod summed;
mod taking;
mod text_line;
mod train;
mod word;
mod words;
mod write;

pub use command_spec::{Line, Words};
pub use date::read_date;
pub use line::{LineRead, read_line};
pub use lines::{number_text, place_text};
pub use made::Made;
pub use number::{read_number, read_number_within};
pub use summed::Summed;
pub use taking::{Taken, skip, take_line};
pub use text_line::TextLine;
pub use train::{Train, TrainRead};
pub use words::{BadWords, read_words};
pub use write::{write_date, write_name, write_number};
