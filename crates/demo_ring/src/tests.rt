use crate::demo_text;
use aiger_ascii::read_ascii;
use std::test::Fail;

#[test]
fn the_text_of_three_latches(rt: HostRuntime) -> Result<(), Fail> {
    let text = demo_text(rt.alloc(), 3)?;
    let want = b"aag 6 0 3 0 3 4\n2 6 1\n4 2\n6 4\n8\n10\n12\n6\n8 4 2\n10 6 4\n12 6 2\n";
    assert_eq!(rt; text.bytes(), want.as_slice());
    Ok(())
}

#[test]
fn readers_take_the_text(rt: HostRuntime) -> Result<(), Fail> {
    for n in [3, 4, 40, 1000] {
        let text = demo_text(rt.alloc(), n)?;
        let design = read_ascii(rt.alloc(), text.bytes()).ok().ok_or("a design")?;
        assert_eq!(rt; design.vars(), 2 * n);
        assert!(rt; (design.inputs(), design.constraints()) == (0, 0));
        assert!(rt; (design.latches(), design.gates(), design.props()) == (n, n, n + 1));
    }
    Ok(())
}
