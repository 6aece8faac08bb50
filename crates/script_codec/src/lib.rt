//! The lines of a script: what each says, read and written.
//!
//! A script is lines, each ended by a line feed, which the last one may lack; one carriage return at a line's end is dropped.
//! The words of a line are parted by one blank. An empty line, or one that begins with `#`, says nothing.
//!
//! | line | says |
//! |---|---|
//! | `write OFF HEX` | writes one byte or more on the drive |
//! | `read OFF LEN` | reads the drive |
//! | `zero OFF LEN`, `zero OFF LEN nohole` | makes a range of the drive read as zeros |
//! | `flush` | flushes the drive |
//! | `view NAME OFF LEN` | reads a node |
//! | `status NAME CONTEXT OFF LEN` | asks runs of a node |
//! | `qmp JSON` | a text for the monitor, whatever it is |
//! | `tick`, `stop`, `quit` | a tick, an end without closing, a closing |
//!
//! Reading is exact both ways: what is read is what `script_model` says of the text, and a line without a form is refused
//! exactly where no line is spelled. Each line is written in its one spelling; where that ends in a carriage return, as the
//! text of a `qmp` may, one more stands before the line feed. So a line that was read is read again as itself.
#![tactic(auto)]

mod lines;
mod reading;
mod requests;
mod words;
mod writing;

pub use lines::{Line, Lines, ScriptRefusal};
pub use reading::{first_bad_line, first_line, read_line, read_script};
pub use words::number;
pub use writing::write_line;

#[cfg(test)]
mod tests;
