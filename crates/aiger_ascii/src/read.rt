//! Bytes to a design.

ghost use Rattle.std.specs.Prelude.{◌≡◌, ◌^◌, ◌<◌, List, IfOk, OnOk};
ghost use Rattle.ja_base.specs.Answers.{IfRefused};
ghost use Rattle.ja_base.specs.Circuit.{Circuit};
ghost use Rattle.ja_text.specs.Reading.{Gives};
ghost use Rattle.aig_model.specs.Netlist.{circuit};
ghost use Rattle.aig_model.specs.Refusals.{netlist_of, AreInRange, AreOnce, MakesDesign};
ghost use Rattle.aiger_ascii.specs.Grammar.{IsAsciiDesign};
ghost use Rattle.aiger_ascii.specs.Reading.{file_at};
ghost use Rattle.aiger_ascii.specs.FirstRefusal.{IsLate, Becomes, IsBuildRefusal, IsFirstRefusal};

use crate::sections::sections;
use aig_model::{BuildRefusal, Design, Parts};
use aiger_lines::{Form, Header, Read, ReadRefusal, bad_line, place, read_header};
use ja_base::OrMemory;
use std::alloc::Global;

/// The sizes and the lists of a file. What is left follows the gates.
#[tactic(auto, unfolding(crate::specs::Reading::file_at))]
fn file(alloc: Global, rest: &mut &[u8]) -> Read<(Header, Parts)>
    ensures { Gives (λ x. record { head = x.0; parts = x.1; tail = rest.new.now }) result
        (file_at rest.old.now) }
{
    let size = rest.len();
    let header = read_header(Form::Ascii, rest)?;
    let parts = sections(alloc, size, &header, rest)?;
    Ok((header, parts))
}

/// Each line was read against the variables of those before it, so no variable is defined twice.
fn named(refusal: BuildRefusal) -> ReadRefusal
    requires { IsLate refusal }
    ensures { Becomes refusal result }
{
    match refusal {
        BuildRefusal::Undefined(var) => ReadRefusal::Undefined { var },
        BuildRefusal::Cycle(var) => ReadRefusal::Cycle { var },
        BuildRefusal::Twice(_) => unreachable!(),
    }
}

fn design(alloc: Global, parts: Parts) -> Read<Design>
    requires range { AreInRange parts }
    requires once { AreOnce parts }
    ensures design { IfOk result (λ d. circuit d ≡ circuit (netlist_of parts)) }
    ensures sound { OnOk result (MakesDesign parts) }
    ensures refused { IfRefused result (IsBuildRefusal parts) }
{
    match Design::build(alloc, parts) {
        Ok(design) => Ok(design),
        Err(OrMemory::Refused(refusal)) => Err(OrMemory::Refused(named(refusal))),
        Err(OrMemory::Memory) => Err(OrMemory::Memory),
    }
}

/// The design of a file, or its first refusal.
fn whole(alloc: Global, bytes: &[u8]) -> Read<Design>
    ensures found { IfOk result (λ d. IsAsciiDesign bytes.now (circuit d)) }
    ensures refused { IfRefused result (IsFirstRefusal bytes.now) }
{
    let mut rest = bytes;
    let (header, parts) = file(alloc, &mut rest)?;
    let design = design(alloc, parts)?;
    match bad_line(&header, rest) {
        None => Ok(design),
        Some(line) => Err(OrMemory::Refused(ReadRefusal::Symbol {
            at: place(bytes.len(), line),
        })),
    }
}

/// The design that the bytes spell.
pub fn read_ascii(alloc: Global, bytes: &[u8]) -> Read<Design>
    // What is read is spelled so.
    ensures found { IfOk result (λ d. IsAsciiDesign bytes.now (circuit d)) }
    // What is spelled so is read, unless memory runs out.
    ensures only { (c : Circuit) → IsAsciiDesign bytes.now c → IfOk result (λ d. circuit d ≡ c) }
    ensures not_refused { (c : Circuit) → IsAsciiDesign bytes.now c
        → IfRefused result (λ _. ⊥) }
    // Which refusal it is.
    ensures refused { IfRefused result (IsFirstRefusal bytes.now) }
{
    whole(alloc, bytes)
}
