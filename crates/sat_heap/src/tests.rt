use crate::Heap;
use ja_base::Var;
use std::test::Fail;

// Variables 0 to 4, of which 3 is bumped twice and 1 once; a fresh one is 5.
#[test]
fn pops_the_greatest(rt: HostRuntime) -> Result<(), Fail> {
    let mut heap = Heap::new(rt.alloc(), 5)?;
    assert_eq!(rt; heap.fresh()?, Var(5));
    for (var, times) in [(3, 4), (1, 2), (4, 3)] {
        for _ in 0..times {
            if var < heap.vars() {
                heap.bump(Var(var));
            }
        }
    }
    for var in [3, 4, 1] {
        assert_eq!(rt; heap.pop(), Some(Var(var)));
    }
    heap.halve();
    for var in [3, 1, 4] {
        if var < heap.vars() && !heap.has(Var(var)) {
            heap.put(Var(var));
        }
    }
    for _ in 0..2 {
        if 1 < heap.vars() {
            heap.bump(Var(1));
        }
    }
    for var in [1, 3, 4] {
        assert_eq!(rt; heap.pop(), Some(Var(var)));
    }
    for _ in 0..3 {
        assert!(rt; heap.pop().is_some());
    }
    assert_eq!(rt; heap.pop(), None);
    Ok(())
}
