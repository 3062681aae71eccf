// Round files, read: the header, the records that borrow their notes from the file's bytes, and a
// reader that a refusal leaves where it stood.
//
// A reader of this crate has to believe how numbers are packed into bytes (specs/Bits), the layout
// and the questions of a file (specs/Format), and what reading a record gives (specs/Reading)
// and a whole file (specs/Listed).

#![tactic(auto)]

mod bits;
mod cursors;
mod headers;
mod listings;
mod numbers;
mod readers;
mod records;

pub use cursors::Cursor;
pub use headers::Header;
pub use listings::Listing;
pub use readers::Reader;
pub use records::{Note, Record};
