//! The text of a stimulus.

ghost use Rattle.std.specs.Prelude.{◌≡◌, ℕ, List, Bool, IfOk, [], ◌∷◌, ◌++◌, ◌<◌, length, Ok, Result};
ghost use Rattle.ja_base.specs.Answers.{IfRefused};
ghost use Rattle.ja_base.specs.Runs.{Trace};
ghost use Rattle.ja_text.specs.Reading.{Gives};
ghost use Rattle.local_stim.specs.StimulusReading.{rows_at, with_rows, stimulus_at, stimulus_of};
ghost use Rattle.local_stim.specs.StimulusText.{IsStimulusText};
ghost use Rattle.local_stim.specs.FirstRefusal.{IsFirstRefusal};

use crate::limits::{MOST_BYTES, MOST_ROWS};
use crate::lines::{Read, after_one, dot_at, next_row, property_at, row_at};
use crate::refusal::StimRefusal;
use aig_model::{Design, Stimulus};
use ja_base::{OrMemory, Row, Rows};
use std::alloc::Global;

/// The input rows: the first one, and those up to the dot, at most `most`.
fn rows_of(alloc: Global, width: u32, most: u32, first: Row, bytes: &[u8]) -> Read<Rows>
    ensures { Gives (λ rows. rows) result
        (with_rows (first ∷ []) (rows_at width most 5 bytes.now)) }
{
    let mut rows = Rows::one(alloc, first)?;
    let mut rest = bytes;
    for done in 0..most {
        match next_row(alloc, width, 5 + done as u64, rest)? {
            None => return Ok(rows),
            Some((row, after)) => {
                rows.push(row)?;
                rest = after;
            }
        }
    }
    dot_at(5 + most as u64, rest)?;
    Ok(rows)
}

#[tactic(auto, unfolding(crate::specs::StimulusReading::stimulus_at))]
fn stimulus_at(alloc: Global, most: u32, bytes: &[u8], design: &Design) -> Read<(u32, Stimulus)>
    ensures { Gives (λ x. (x.0, x.1)) result (stimulus_at most design.now bytes.now) }
{
    let rest = after_one(bytes)?;
    let (prop, rest) = property_at(design.props(), rest)?;
    let (first, rest) = row_at(alloc, design.latches(), 3, rest)?;
    let (input, rest) = row_at(alloc, design.inputs(), 4, rest)?;
    let inputs = rows_of(alloc, design.inputs(), most, input, rest)?;
    Ok((prop, Stimulus::new(first, inputs)))
}

/// The stimulus that a text spells for a design, with its property.
pub fn read_stim(
    alloc: Global,
    bytes: &[u8],
    design: &Design,
) -> Result<(u32, Stimulus), OrMemory<StimRefusal>>
    ensures found { IfOk result (λ x. IsStimulusText design.now bytes.now x.0 x.1) }
    ensures only { (p : ℕ) (m : Trace) → IsStimulusText design.now bytes.now p m
        → IfOk result (λ x. (x.0 ≡ p) × (x.1 ≡ m)) }
    ensures refused { IfRefused result (IsFirstRefusal design.now bytes.now) }
    ensures not_refused { (p : ℕ) (m : Trace) → IsStimulusText design.now bytes.now p m
        → IfRefused result (λ _. ⊥) }
{
    let found = read_exactly(alloc, bytes, design)?;
    Ok(found)
}

#[tactic(auto, unfolding(crate::specs::StimulusReading::stimulus_of))]
fn read_exactly(alloc: Global, bytes: &[u8], design: &Design) -> Read<(u32, Stimulus)>
    ensures { Gives (λ x. (x.0, x.1)) result (stimulus_of design.now bytes.now) }
{
    if bytes.len() > MOST_BYTES {
        return Err(OrMemory::Refused(StimRefusal::TooLarge));
    }
    let found = stimulus_at(alloc, MOST_ROWS - 1, bytes, design)?;
    Ok(found)
}
