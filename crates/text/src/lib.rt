// Texts in bytes: fields with decimal numbers, read strictly, one after another or at any place;
// and bytes, decimal numbers and lines, written into a buffer one after another. A field is a
// name, a number and a line feed.
#![tactic(auto)]

mod reader;
mod reading;
mod writer;

pub use reader::{Reader, field, signed_field};
pub use writer::Writer;
