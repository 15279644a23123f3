//! Forms of bytes: numbers, words, lines and rows are read from the front of a slice, and a text is written at its end.
//! `specs/Numbers`, `Lines` and `Rows` have what each form is and how it is read, `laws` that the two agree.
//! `specs/Reading` and `Repeated` have the words for readers of whole files: one form after another, the first refusal.
#![tactic(auto)]

mod bytes;
mod cursor;
mod laws;
mod numbers;
mod text;

pub use bytes::{line, newline, number, space, whole_number, word};
pub use cursor::{Bad, Cursor};
pub use laws::{
    decimal_is_exact, line_is_exact, newline_is_exact, number_is_exact, row_is_exact,
    space_is_exact, whole_number_is_exact, word_is_exact,
};
pub use numbers::{Numbers, row};
pub use text::Text;

#[cfg(test)]
mod tests;
