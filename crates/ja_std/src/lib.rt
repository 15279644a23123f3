//! The trusted edge: real files, standard output and an open gate behind the traits of the outside. They tell no content, so
//! no contract says what a file holds or a terminal shows; that their counts rise at real errors alone is shown by a test.
#![tactic(auto)]

mod files;
mod open_gate;
mod output;

pub use files::FileShelf;
pub use open_gate::OpenGate;
pub use output::StdSink;

#[cfg(test)]
mod tests;
