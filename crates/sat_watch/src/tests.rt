ghost use Rattle.std.specs.Prelude.{◌≡◌, []};
ghost use Rattle.std.specs.Bool.{OnTrue};
ghost use Rattle.ja_base.specs.Clauses.{IsBelow};

use crate::{Step, Tag, Watch};
use ja_base::{Clause, Lit, Memory};
use std::alloc::Global;
use std::test::Fail;

fn is_below(vars: u32, lits: &[Lit]) -> bool
    ensures { OnTrue result (IsBelow vars lits.now) }
{
    for lit in lits {
        if lit.var().number() >= vars {
            return false;
        }
    }
    true
}

/// The slot that the clause takes, if it is over the variables.
fn add(alloc: Global, watch: &mut Watch, lits: &[Lit], number: u32) -> Result<Option<u32>, Memory> {
    let clause = Clause::from_lits(alloc, lits)?;
    if !is_below(watch.trail().vars(), clause.lits()) {
        return Ok(None);
    }
    let tag = Tag {
        tainted: number > 6,
        number,
    };
    let at = watch.add(clause, tag)?;
    Ok(Some(at))
}

/// None where the literal has a value already.
fn decide(watch: &mut Watch, lit: Lit) -> Option<Step> {
    if lit.var().number() >= watch.trail().vars() {
        return None;
    }
    match watch.value(lit) {
        Some(_) => None,
        None => Some(watch.assign(lit)),
    }
}

fn has_trail(watch: &Watch, places: &[(Lit, Option<u32>)]) -> bool {
    let trail = watch.trail();
    if trail.len() as usize != places.len() {
        return false;
    }
    for at in 0..trail.len() {
        let place = trail.place(at);
        if (place.lit, place.reason) != places[at as usize] {
            return false;
        }
    }
    true
}

/// Lets the clauses of these slots go, with nothing on the trail.
fn forget(watch: &mut Watch, slots: &[u32]) {
    for at in slots {
        watch.undo(0);
        if *at < watch.slots() {
            watch.forget(*at);
        }
    }
}

// Variables 0 to 3 and a fresh one, 4. Under 9 and 2 no row meets the clauses; without {3, 7}, from 2 follow 4 and 6. The slot
// of {3, 7} is taken again.
#[test]
fn propagates_to_the_end(rt: HostRuntime) -> Result<(), Fail> {
    let alloc = rt.alloc();
    let mut watch = Watch::new(alloc, 4)?;
    assert_eq!(rt; watch.fresh()?.number(), 4);
    let clauses: [&[Lit]; 4] = [
        &[Lit(3), Lit(4)],
        &[Lit(5), Lit(6), Lit(8)],
        &[Lit(3), Lit(7)],
        &[Lit(9)],
    ];
    for (number, lits) in clauses.into_iter().enumerate() {
        let number = number as u32;
        assert_eq!(rt; add(alloc, &mut watch, lits, 5 + number)?, Some(number));
    }
    assert!(rt; matches!(decide(&mut watch, Lit(2)), Some(Step::Conflict(_))));
    forget(&mut watch, &[2]);
    assert_eq!(rt; watch.propagate(), Step::Quiet);
    assert!(rt; has_trail(&watch, &[(Lit(9), Some(3))]));
    assert_eq!(rt; decide(&mut watch, Lit(2)), Some(Step::Quiet));
    assert_eq!(rt; decide(&mut watch, Lit(7)), None);
    assert!(rt;
        has_trail(
            &watch,
            &[
                (Lit(9), Some(3)),
                (Lit(2), None),
                (Lit(4), Some(0)),
                (Lit(6), Some(1)),
            ]
        )
    );
    assert_eq!(rt; add(alloc, &mut watch, &[Lit(4), Lit(6)], 7)?, Some(2));
    if 2 < watch.slots() {
        assert_eq!(rt;
            watch.tag(2),
            Tag {
                tainted: true,
                number: 7
            }
        );
        assert_eq!(rt; watch.clause(2).lits(), [Lit(4), Lit(6)].as_slice());
    }
    forget(&mut watch, &[0, 3]);
    assert!(rt; 3 < watch.slots() && !watch.is_live(3));
    assert_eq!(rt; decide(&mut watch, Lit(5)), Some(Step::Quiet));
    assert!(rt; has_trail(&watch, &[(Lit(5), None), (Lit(6), Some(2))]));
    Ok(())
}

/// Keeps the first places, so many, and decides; then whether the trail is so long, and ends so.
fn ends(watch: &mut Watch, to: u32, lit: Lit, len: u32, last: Lit, reason: Option<u32>) -> bool {
    if to > watch.trail().len() {
        return false;
    }
    watch.undo(to);
    if decide(watch, lit) != Some(Step::Quiet) || watch.trail().len() != len || len == 0 {
        return false;
    }
    let place = watch.trail().place(len - 1);
    place.lit == last && place.reason == reason
}

// A clause of five literals, of which all but one become false in several orders, or one is true. A second one comes when two of
// its three literals are false.
#[test]
fn watches_by_other_literals(rt: HostRuntime) -> Result<(), Fail> {
    let alloc = rt.alloc();
    let mut watch = Watch::new(alloc, 5)?;
    let long: [Lit; 5] = [Lit(0), Lit(2), Lit(4), Lit(6), Lit(8)];
    assert_eq!(rt; add(alloc, &mut watch, &long, 1)?, Some(0));
    let rows: [(u32, Lit, u32, Lit, Option<u32>); 13] = [
        (0, Lit(1), 1, Lit(1), None),
        (1, Lit(3), 2, Lit(3), None),
        (2, Lit(5), 3, Lit(5), None),
        (3, Lit(7), 5, Lit(8), Some(0)),
        (1, Lit(9), 2, Lit(9), None),
        (2, Lit(3), 3, Lit(3), None),
        (3, Lit(7), 5, Lit(4), Some(0)),
        (0, Lit(8), 1, Lit(8), None),
        (1, Lit(1), 2, Lit(1), None),
        (2, Lit(3), 3, Lit(3), None),
        (3, Lit(5), 4, Lit(5), None),
        (4, Lit(7), 5, Lit(7), None),
        (0, Lit(9), 1, Lit(9), None),
    ];
    for (to, lit, len, last, reason) in rows.into_iter() {
        assert!(rt; ends(&mut watch, to, lit, len, last, reason));
    }
    assert!(rt; ends(&mut watch, 1, Lit(7), 2, Lit(7), None));
    assert_eq!(rt;
        add(alloc, &mut watch, &[Lit(2), Lit(6), Lit(8)], 2)?,
        Some(1)
    );
    assert_eq!(rt; watch.propagate(), Step::Quiet);
    assert!(rt; has_trail(&watch, &[(Lit(9), None), (Lit(7), None), (Lit(2), Some(1))]));
    assert!(rt; ends(&mut watch, 0, Lit(3), 1, Lit(3), None));
    assert!(rt; ends(&mut watch, 1, Lit(9), 3, Lit(6), Some(1)));
    Ok(())
}
