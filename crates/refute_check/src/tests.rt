ghost use Rattle.std.specs.Prelude.{◌≡◌};

use crate::fit::fits;
use crate::{Checker, Hints, Line};
use ja_base::{Clause, Lit, Memory};
use std::alloc::Global;
use std::process::Abort;
use std::test::Fail;

#[tactic(auto, using(crate::proofs::ListLemmas::fit_below))]
fn add(rt: &impl Abort, alloc: Global, checker: &mut Checker, lits: &[Lit]) -> Result<u32, Memory>
    requires { checker.old.vars ≡ 3 }
    ensures { checker.new.vars ≡ 3 }
{
    let clause = Clause::from_lits(alloc, lits)?;
    assert!(rt; fits(3, clause.lits()));
    let number = checker.add(alloc, &clause)?;
    Ok(number)
}

/// The number of the accepted line, or the hint at which it is refused.
fn take(
    alloc: Global,
    checker: &mut Checker,
    lits: &[Lit],
    hints: &[u32],
) -> Result<Result<u32, u32>, Memory> {
    let mut list = Hints::new(alloc);
    for hint in hints {
        list.push(*hint)?;
    }
    let clause = Clause::from_lits(alloc, lits)?;
    checker.reserve(1)?;
    match checker.line(Line {
        clause,
        hints: list,
    }) {
        Ok(number) => Ok(Ok(number)),
        Err(refused) => Ok(Err(refused.hint)),
    }
}

// Variables 0 to 2; 0 is {2, 4}, 1 is {3, 4}. Each line before the last is refused and changes nothing.
#[test]
fn takes_lines(rt: HostRuntime) -> Result<(), Fail> {
    let alloc = rt.alloc();
    let mut checker = Checker::new(alloc, 3)?;
    assert_eq!(rt; add(&rt, alloc, &mut checker, &[Lit(4), Lit(2)])?, 0);
    assert_eq!(rt; add(&rt, alloc, &mut checker, &[Lit(3), Lit(4)])?, 1);
    let rows: [(&[Lit], &[u32], Result<u32, u32>); 9] = [
        (&[Lit(4)], &[0], Err(1)),
        (&[Lit(4)], &[0, 0], Err(1)),
        (&[Lit(4)], &[7], Err(0)),
        (&[Lit(4)], &[], Err(0)),
        (&[], &[0, 1], Err(0)),
        (&[Lit(4), Lit(2)], &[1, 0], Err(0)),
        (&[Lit(2), Lit(3)], &[0], Err(0)),
        (&[Lit(4), Lit(6)], &[0, 1], Err(0)),
        (&[Lit(4)], &[0, 1], Ok(2)),
    ];
    for (lits, hints, answer) in rows {
        assert!(rt; !checker.covers(&[Lit(5)]), "before {lits:?} by {hints:?}");
        assert_eq!(rt;
            take(alloc, &mut checker, lits, hints)?,
            answer,
            "{lits:?} by {hints:?}"
        );
    }
    assert!(rt; checker.covers(&[Lit(5)]) && checker.covers(&[Lit(2), Lit(3)]));
    assert!(rt; !checker.covers(&[Lit(2), Lit(4)]));
    Ok(())
}

#[test]
fn drops_lines(rt: HostRuntime) -> Result<(), Fail> {
    let alloc = rt.alloc();
    let mut checker = Checker::new(alloc, 3)?;
    assert_eq!(rt; add(&rt, alloc, &mut checker, &[Lit(2), Lit(4)])?, 0);
    assert_eq!(rt; add(&rt, alloc, &mut checker, &[Lit(3), Lit(4)])?, 1);
    for _ in 0..2 {
        assert_eq!(rt; take(alloc, &mut checker, &[Lit(4)], &[0, 1])?, Ok(2));
        assert_eq!(rt; take(alloc, &mut checker, &[Lit(2), Lit(4)], &[2])?, Ok(3));
        checker.forget_lines();
        assert!(rt; !checker.covers(&[Lit(5)]));
    }
    assert_eq!(rt; take(alloc, &mut checker, &[Lit(2), Lit(4)], &[2])?, Err(0));
    Ok(())
}
