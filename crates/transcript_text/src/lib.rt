//! The texts of transcripts.
#![tactic(auto)]

mod ahead;
mod batch;
mod cut;
mod entry_lines;
mod entry_reader;
mod fault;
mod feed;
mod fields;
mod head;
mod head_writing;
mod hex_digits;
mod lines;
mod made;
mod piece;
mod pieces;
mod reader;
mod rows;
mod version;
mod writer;
mod writing;
mod written;

pub use ahead::EntriesAhead;
pub use entry_lines::entry_line;
pub use entry_reader::EntryReader;
pub use fault::ReadError;
pub use feed::{EntryFeed, Fed, Rest};
pub use head_writing::{is_partial, meter_span};
pub use lines::put_all;
pub use piece::BYTES_A_PIECE;
pub use pieces::TextPieces;
pub use reader::{read, read_in_pieces, read_old};
pub use version::Version;
pub use writer::write;
pub use writing::line_text;
