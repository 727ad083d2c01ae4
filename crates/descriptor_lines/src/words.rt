//! The words of a line: what they are, the numbers, names, kinds and tickets that they write, the
//! commands that they begin, and what can be wrong with them.
mod counts;
mod fault;
mod keyword;
mod text;
mod tickets;

pub use counts::{parse_counts, parse_u32};
pub use fault::{Fault, Refusal};
pub use keyword::Keyword;
pub use text::{KIND_COUNT, Words, around, first_of, kind, kind_name, name, number_within};
pub use tickets::parse_free;
