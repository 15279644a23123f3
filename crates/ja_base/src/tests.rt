use crate::{Clause, ClauseList, Lit, Meter, Row, Rows, Spent};
use std::test::Fail;

#[test]
fn makes_clauses(rt: HostRuntime) -> Result<(), Fail> {
    let given: [Lit; 7] = [Lit(9), Lit(4), Lit(5), Lit(4), Lit(12), Lit(9), Lit(6)];
    let clause = Clause::from_lits(rt.alloc(), &given)?;
    assert_eq!(rt;
        clause.lits(),
        [Lit(4), Lit(5), Lit(6), Lit(9), Lit(12)].as_slice()
    );
    assert_eq!(rt; clause.copy(rt.alloc())?.lits(), clause.lits());
    let part = Clause::from_lits(rt.alloc(), &[Lit(12), Lit(5)])?;
    assert!(rt; part.subsumes(&clause) && !clause.subsumes(&part));
    let mut list = ClauseList::new(rt.alloc());
    list.push(part)?;
    assert_eq!(rt; list.len(), 1);
    assert_eq!(rt; list.get(0).lits(), [Lit(5), Lit(12)].as_slice());
    list.set(0, clause);
    let mut lists = ClauseList::new(rt.alloc());
    lists.append(list)?;
    assert_eq!(rt; lists.pop().map(|clause| clause.lits().len()), Some(5));
    assert!(rt; lists.pop().is_none());
    Ok(())
}

#[test]
fn makes_rows(rt: HostRuntime) -> Result<(), Fail> {
    let mut rows = Rows::one(rt.alloc(), Row::ones(rt.alloc(), 2)?)?;
    rows.push(Row::zeros(rt.alloc(), 1)?.copy(rt.alloc())?)?;
    let rows = rows.copy(rt.alloc())?;
    assert_eq!(rt; rows.len(), 2);
    assert_eq!(rt; rows.get(0).as_slice(), [true, true].as_slice());
    assert_eq!(rt; rows.get(1).as_slice(), [false].as_slice());
    Ok(())
}

#[test]
fn stops_at_the_limit(rt: HostRuntime) {
    let mut meter = Meter::new(Some(2));
    for (answer, is_noted) in [
        (Ok(()), false),
        (Ok(()), true),
        (Err(Spent), true),
        (Err(Spent), true),
    ] {
        assert_eq!(rt; meter.tick(), answer);
        assert_eq!(rt; meter.note().is_some(), is_noted);
    }
    assert_eq!(rt; meter.note().map(|note| note.units()), Some(2));
}
