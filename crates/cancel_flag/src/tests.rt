use crate::CancelFlag;
use ja_outside::Flag;
use std::test::Fail;

// A view finds a flag raised from the call on that raises it, also a view that was made before.
#[test]
fn polls_what_was_raised(rt: HostRuntime) -> Result<(), Fail> {
    let flag = CancelFlag::new(true);
    let mut view = flag.view();
    assert!(rt; flag.may());
    assert!(rt; !view.poll());
    flag.raise();
    assert!(rt; view.poll());
    assert!(rt; flag.view().poll());
    Ok(())
}

#[test]
fn never_rises_where_it_may_not(rt: HostRuntime) -> Result<(), Fail> {
    let flag = CancelFlag::new(false);
    let mut view = flag.view();
    assert!(rt; !flag.may());
    for _ in 0..3u32 {
        assert!(rt; !view.poll());
    }
    Ok(())
}
