//! Levels with the top 3. Clauses have one or two literals, or 0 in place of one that lacks.

ghost use Rattle.std.specs.Prelude.{◌≡◌, IfOk};

use crate::Frames;
use ja_base::{Clause, Lit, Lits, Memory};
use std::alloc::Global;
use std::process::Abort;
use std::test::Fail;

type Numbers = [u32; 2];

const NO: Numbers = [0, 0];

fn clause(alloc: Global, numbers: Numbers) -> Result<Clause, Memory> {
    let mut lits = Lits::new(alloc);
    for number in numbers {
        if number != 0 {
            lits.push(Lit(number))?;
        }
    }
    Clause::from_lits(alloc, lits.as_slice())
}

fn empty(alloc: Global) -> Result<Frames, Memory>
    ensures { IfOk result (λ frames. frames.top ≡ 3) }
{
    let mut frames = Frames::new(alloc);
    frames.grow()?;
    frames.grow()?;
    frames.grow()?;
    Ok(frames)
}

/// The levels to which these clauses were added one after the other; a level 0 adds nothing.
fn frames(rt: &impl Abort, alloc: Global, adds: [(Numbers, u32); 3]) -> Result<Frames, Memory> {
    let mut frames = empty(alloc)?;
    for (numbers, level) in adds {
        if level != 0 {
            assert!(rt; level <= frames.top());
            frames.add(clause(alloc, numbers)?, level)?;
        }
    }
    Ok(frames)
}

#[test]
fn blocks_at_levels(rt: HostRuntime) -> Result<(), Fail> {
    let alloc = rt.alloc();
    let frames = frames(&rt, alloc, [([3, 0], 2), (NO, 0), (NO, 0)])?;
    let rows = [
        (1, [3, 5], true),
        (2, [3, 5], true),
        (3, [3, 5], false),
        (1, [3, 0], true),
        (1, [5, 7], false),
        (1, [67, 0], false),
    ];
    for (level, numbers, expected) in rows {
        let clause = clause(alloc, numbers)?;
        assert_eq!(rt;
            frames.blocks(level, &clause),
            expected,
            "{numbers:?} at {level}"
        );
    }
    Ok(())
}

// A level is fixed where no clause has it for its own.
#[test]
fn finds_fixed_levels(rt: HostRuntime) -> Result<(), Fail> {
    let alloc = rt.alloc();
    let rows = [
        ([(NO, 0), (NO, 0), (NO, 0)], Some(1)),
        ([([3, 0], 2), (NO, 0), (NO, 0)], Some(1)),
        ([([3, 0], 1), (NO, 0), (NO, 0)], Some(2)),
        ([([3, 0], 2), ([7, 0], 1), (NO, 0)], None),
        ([([3, 0], 2), ([7, 0], 1), ([7, 0], 3)], Some(1)),
    ];
    for (adds, expected) in rows {
        assert_eq!(rt; frames(&rt, alloc, adds)?.fixed(), expected, "{adds:?}");
    }
    Ok(())
}

// The new clause takes the place of the first, and not of the second, which stands higher.
#[test]
fn drops_what_is_subsumed(rt: HostRuntime) -> Result<(), Fail> {
    let alloc = rt.alloc();
    let adds = [([3, 5], 1), ([3, 7], 3), ([3, 0], 2)];
    let mut frames = frames(&rt, alloc, adds)?;
    assert!(rt; frames.len() == 2 && frames.top() == 3);
    assert_eq!(rt; frames.clause(0).lits(), [Lit(3), Lit(7)].as_slice());
    assert_eq!(rt; frames.clause(1).lits(), [Lit(3)].as_slice());
    assert_eq!(rt; (frames.level(0), frames.level(1)), (3, 2));
    frames.push(1, 3);
    assert_eq!(rt; frames.len(), 2);
    Ok(())
}
