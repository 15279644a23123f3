use crate::{Obligation, Queue};
use ja_base::{Clause, Lit, Memory, Row, Rows};
use std::alloc::Global;
use std::test::Fail;

fn obligation(alloc: Global, level: u32, lit: u32) -> Result<Obligation, Memory> {
    let clause = Clause::from_lits(alloc, &[Lit(lit)])?;
    let chain = Rows::one(alloc, Row::zeros(alloc, 1)?)?;
    Ok(Obligation {
        level,
        clause,
        chain,
    })
}

// Levels and clauses as they are put, and as they are taken.
#[test]
fn takes_the_lowest(rt: HostRuntime) -> Result<(), Fail> {
    let alloc = rt.alloc();
    let mut queue = Queue::new(alloc);
    for (level, lit) in [(2, 3), (1, 5), (1, 7), (3, 9), (2, 11)] {
        queue.put(obligation(alloc, level, lit)?)?;
    }
    for (level, lit) in [(1, 5), (1, 7), (2, 3), (2, 11), (3, 9)] {
        let taken = queue.take().ok_or("the queue is empty")?;
        assert_eq!(rt; taken.level, level);
        assert_eq!(rt; taken.clause.lits(), [Lit(lit)].as_slice());
    }
    assert!(rt; queue.take().is_none());
    Ok(())
}
