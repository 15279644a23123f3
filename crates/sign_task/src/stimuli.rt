//! The stimuli of a report, taken from the failures of a board.

ghost use Rattle.std.specs.Prelude.{◌≡◌, ℕ, ◌<◌, ◌^◌, ◌++◌, ◌∷◌, [], Some, if◌then◌else◌, length, map, slice_get, slice_index_or, All, IfOk, OnOk};
ghost use Rattle.ja_base.specs.Literals.{bit};
ghost use Rattle.store_core.specs.MarkKinds as kinds;
ghost use Rattle.local_stim.specs.Found.{FoundFailure};
ghost use Rattle.report.specs.declared.parts.PropStim.{PropStim};
ghost use Rattle.report.specs.Findings.{failing_from};
ghost use Rattle.sign_task.specs.Assembly.{IsOneOf, plain_failures};
ghost use Rattle.sign_task.specs.Places.{ArePlaces, AllHaveFailure};

use aig_model::Stimulus;
use ja_base::Memory;
use local_stim::LocalFailure;
use report::{PropStim, Stimuli};
use std::alloc::Global;
use store_core::Mark;

/// For each property the place of its failure, if it has one.
fn places(alloc: Global, props: usize, failures: &[LocalFailure]) -> Result<Vec<u32>, Memory>
    requires within { All (λ (f : FoundFailure). f.prop < props) failures.now }
    requires short { length failures.now < 2 ^ 32 }
    ensures { IfOk result (λ places. ArePlaces failures.now props places.items) }
{
    let mut places = vec![in alloc; 0; props]?;
    for place in 0..failures.len() as u32 {
        let prop = failures[place as usize].prop();
        places[prop as usize] = place;
    }
    Ok(places)
}

fn has_failed(marks: &[Mark], prop: usize) -> bool
    requires { prop < length marks.now }
    ensures { result ≡ bit (map kinds.fails marks.now) prop }
{
    matches!(marks[prop], Mark::Fails)
}

fn stimulus_of(alloc: Global, failure: &LocalFailure) -> Result<PropStim, Memory>
    ensures { IfOk result (λ x. x ≡ record { prop = failure.now.prop; stim = failure.now.stim }) }
{
    let stim = failure.stim();
    let (first, inputs) = (stim.first().copy(alloc)?, stim.inputs().copy(alloc)?);
    Ok(PropStim {
        prop: failure.prop(),
        stim: Stimulus::new(first, inputs),
    })
}

/// The failures come in the order of settling, and their stimuli by ascending property: one pass over the failures, and one over
/// the properties.
pub(crate) fn stimuli_of(
    alloc: Global,
    marks: &[Mark],
    failures: &[LocalFailure],
) -> Result<Stimuli, Memory>
    requires within { All (λ (f : FoundFailure). f.prop < length marks.now) failures.now }
    requires short { length failures.now < 2 ^ 32 }
    requires each { AllHaveFailure failures.now marks.now }
    ensures one_each { IfOk result
        (λ xs. map (λ (x : PropStim). x.prop) xs ≡ failing_from 0 marks.now) }
    ensures among { IfOk result (All (IsOneOf (plain_failures failures.now))) }
{
    let places = places(alloc, marks.len(), failures)?;
    let mut stimuli = Stimuli::new(alloc);
    for prop in 0..marks.len() {
        if has_failed(marks, prop) {
            let failure = &failures[places[prop] as usize];
            stimuli.push(stimulus_of(alloc, failure)?)?;
        }
    }
    Ok(stimuli)
}
