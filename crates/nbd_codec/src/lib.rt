//! NBD's bytes, read and written: the heads of options and requests, the contents of those options that have one, and each
//! kind of reply (fixed newstyle, structured replies).
//!
//! Reading is exact both ways, by the definitions of `nbd_model`: a head is read where it is whole and has its magic, a
//! content where it has its form. What is written is appended, or nothing is where there is no memory. A message says where
//! it ends, but for a simple reply, whose end the request tells; by the laws of [`laws`].
#![tactic(auto)]

mod contents;
mod heads;
pub mod laws;
mod numbers;
mod writing;

pub use contents::{InfoAsk, MetaAsk, NbdFault, read_info, read_meta};
pub use heads::{OptionHead, Parsed, RequestHead, read_option, read_request};
pub use writing::{
    write_chunk, write_chunk_head, write_greeting, write_option_reply, write_simple,
};

#[cfg(test)]
mod tests;
