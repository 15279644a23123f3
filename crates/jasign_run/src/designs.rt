//! A design in either form of AIGER 1.9.

ghost use Rattle.std.specs.Prelude.{◌≡◌, IfOk};
ghost use Rattle.ja_base.specs.Answers.{IfRefused};
ghost use Rattle.aig_model.specs.Netlist.{circuit};
ghost use Rattle.jasign_run.specs.Designs.{form_of, IsDesign, IsFirstRefusal};

use aig_model::Design;
use aiger_ascii::read_ascii;
use aiger_binary::read_binary;
use aiger_lines::{Form, ReadRefusal};
use ja_base::OrMemory;
use std::alloc::Global;

fn form_of(bytes: &[u8]) -> Form
    ensures { result ≡ form_of bytes.now }
{
    if bytes.starts_with(b"aig") {
        Form::Binary
    } else {
        Form::Ascii
    }
}

/// The design that the bytes spell, in the binary form where they begin with its word, and else in ASCII.
pub fn read_design(alloc: Global, bytes: &[u8]) -> Result<Design, OrMemory<ReadRefusal>>
    ensures found { IfOk result (λ d. IsDesign bytes.now (circuit d)) }
    ensures refused { IfRefused result (IsFirstRefusal bytes.now) }
{
    match form_of(bytes) {
        Form::Ascii => read_ascii(alloc, bytes),
        Form::Binary => read_binary(alloc, bytes),
    }
}
