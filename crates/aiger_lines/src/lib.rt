//! What the two forms of AIGER 1.9 share: the header, the lines of numbers, symbols and comments, and the refusals. What a
//! text of each is stands in `specs/Header`, `specs/Lines` and `specs/Tail`; in which order refusals are met in
//! `specs/Reading`; the words of a whole file in `specs/Files`.
#![tactic(auto)]

mod form;
mod header;
mod laws;
mod limits;
mod lines;
mod refusal;
mod sections;
mod sizes;
mod tail;

pub use form::Form;
pub use header::read_header;
pub use laws::{header_is_exact, literals_are_exact, reset_is_exact, tail_is_exact};
pub use limits::{MOST_BYTES, MOST_LINES, MOST_PROPERTIES, MOST_VARS};
pub use lines::{literal, literals, numbers, one_number, place, reset, used_literal};
pub use refusal::{Large, Read, ReadRefusal};
pub use sections::properties;
pub use sizes::Header;
pub use tail::bad_line;

#[cfg(test)]
mod tests;
