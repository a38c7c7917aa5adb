//! What the texts of a command's files come to, with no desk: their values, what is made of these, the line that is said, or how the command ends.
#![tactic(auto)]

/// The value of a result, or the function fails with the outcome that stands in its place.
macro_rules! or_fail {
    ($result:expr) => {
        match $result {
            Ok(value) => value,
            Err(outcome) => return Err(outcome),
        }
    };
}

mod audit;
mod bill;
mod hide;
mod inspect;
mod lines;
mod public;
mod registers;
mod resume;
mod ring_twin;
mod run;
mod sharing;
mod twin;
mod values;

pub use audit::audit_texts;
pub use bill::{BillsText, bills_of_files};
pub use hide::{Hidden, HideTexts, hidden_of_files};
pub use inspect::{InspectTexts, inspect_texts, public_in};
pub use lines::{
    audited_line, bills_line, converted_line, counted_line, hidden_line, inspected_line, made_line,
    parts_line, public_line,
};
pub use public::public_text;
pub use registers::{RegisterInput, RegisterTexts, read_register_run, register_texts};
pub use resume::{cut_in, resume_texts};
pub use ring_twin::ring_words_moved;
pub use run::{RunTexts, finished_texts, texts_in_memory};
pub use sharing::Sharing;
pub use twin::{TwinTexts, words_moved};
pub use values::{RunInput, plan_in, read_run};
