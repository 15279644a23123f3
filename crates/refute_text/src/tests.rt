use crate::{lines_text, read_lines};
use ja_base::{Lit, OrMemory};
use ja_text::Bad;
use std::test::Fail;

#[test]
fn texts_both_ways(rt: HostRuntime) -> Result<(), Fail> {
    let alloc = rt.alloc();
    let table: [(&[u8], u32); 5] = [
        (b"", 0),
        (b" 4 ; 0 1\n", 1),
        (b" ;\n", 1),
        (b" 4 5 ;\n", 1),
        (b" 0 4294967295 ; 7 7 4294967295\n ; 0\n", 2),
    ];
    for (bytes, count) in table {
        let lines = read_lines(alloc, bytes).ok().ok_or("lines were refused")?;
        assert_eq!(rt; lines.len(), count, "at {bytes:?}");
        assert_eq!(rt; lines_text(alloc, &lines)?.bytes(), bytes, "at {bytes:?}");
    }
    let lines = read_lines(alloc, b" 4 ; 0 1\n")
        .ok()
        .ok_or("lines were refused")?;
    for line in lines.as_slice() {
        assert_eq!(rt; line.clause.lits(), [Lit(4)].as_slice());
        assert_eq!(rt; line.hints.as_slice(), [0, 1].as_slice());
    }
    Ok(())
}

#[test]
fn lines_that_are_none(rt: HostRuntime) {
    let table: [(&[u8], usize); 13] = [
        (b" 5 4 ; 0\n", 0),
        (b" 4 4 ;\n", 0),
        (b" 04 ;\n", 0),
        (b" 4 ; 00\n", 0),
        (b"4 ; 0\n", 0),
        (b" 4 ; 0 1", 0),
        (b" 4 ; 0 1\n 4  ;\n", 9),
        (b" ;\n ;\n\n", 6),
        (b" 4 ;  1\n", 0),
        (b" 4 0\n", 0),
        (b" 4294967296 ;\n", 0),
        (b" 4 ; 4294967296\n", 0),
        (b" 4 ; 0 \n", 0),
    ];
    for (bytes, at) in table {
        let refused = read_lines(rt.alloc(), bytes).err();
        assert_eq!(rt;
            refused,
            Some(OrMemory::Refused(Bad { at })),
            "at {bytes:?}"
        );
    }
}
