//! One proof, taken by a checker.

ghost use Rattle.std.specs.Prelude.{◌≡◌, ◌<◌, ◌≤◌, ◌^◌, ℕ, List, None, Some, OnOk, length};
ghost use Rattle.ja_base.specs.Answers.{IfRefused};
ghost use Rattle.refute_check.specs.Lines.{refusal};
ghost use Rattle.inv_cert.specs.Refusals.{proof_refusal, refused_line};
ghost use Rattle.inv_cert.specs.Taken.{HasLines, HasTaken, IsLoaded, line_refusal};

use crate::not_closed::NotClosed;
use ja_base::{Lit, OrMemory};
use refute_check::{Checker, Line, Lines};

fn take_lines(
    checker: &mut Checker,
    number: u32,
    lines: Vec<Line>,
) -> Result<(), OrMemory<NotClosed>>
    requires room { length lines.items ≤ checker.old.spare }
    requires short { length lines.items < 2 ^ 32 }
    requires loaded { IsLoaded checker.old.vars checker.old.list checker.old }
    ensures accepted { OnOk result
        (line_refusal number (refused_line checker.old.vars checker.old.list 0 lines.items)
        ≡ None) }
    ensures taken { OnOk result
        (HasTaken checker.old.vars checker.old.list lines.items checker.new) }
    ensures held { HasLines checker.old.vars checker.old.list checker.new }
    ensures refused { IfRefused result
        (λ r. line_refusal number (refused_line checker.old.vars checker.old.list 0 lines.items)
        ≡ Some r) }
{
    let mut at = 0u32;
    for line in lines {
        if let Err(refused) = checker.line(line) {
            return Err(OrMemory::Refused(NotClosed::Line {
                candidate: number,
                line: at,
                hint: refused.hint,
            }));
        }
        at += 1;
    }
    Ok(())
}

/// Takes the lines, and looks whether they show that the literals cannot all be 1. The checker keeps them.
fn judge(
    checker: &mut Checker,
    number: u32,
    lines: Vec<Line>,
    under: &[Lit],
) -> Result<(), OrMemory<NotClosed>>
    requires room { length lines.items ≤ checker.old.spare }
    requires short { length lines.items < 2 ^ 32 }
    requires loaded { IsLoaded checker.old.vars checker.old.list checker.old }
    ensures accepted { OnOk result (proof_refusal number checker.old.vars checker.old.list
        lines.items under.now ≡ None) }
    ensures held { HasLines checker.old.vars checker.old.list checker.new }
    ensures refused { IfRefused result (λ r. proof_refusal number checker.old.vars
        checker.old.list lines.items under.now ≡ Some r) }
{
    take_lines(checker, number, lines)?;
    if !checker.covers(under) {
        return Err(OrMemory::Refused(NotClosed::Left(number)));
    }
    Ok(())
}

/// Takes the lines, looks whether they show that the literals cannot all be 1, and gives them back.
pub(crate) fn take_proof(
    checker: &mut Checker,
    number: u32,
    lines: Lines,
    under: &[Lit],
) -> Result<(), OrMemory<NotClosed>>
    requires { IsLoaded checker.old.vars checker.old.list checker.old }
    ensures accepted { OnOk result
        (proof_refusal number checker.old.vars checker.old.list lines under.now ≡ None) }
    ensures loaded { IsLoaded checker.old.vars checker.old.list checker.new }
    ensures refused { IfRefused result
        (λ r. proof_refusal number checker.old.vars checker.old.list lines under.now ≡ Some r) }
{
    checker.reserve(lines.len())?;
    let judged = judge(checker, number, lines.into_vec(), under);
    checker.forget_lines();
    judged
}
