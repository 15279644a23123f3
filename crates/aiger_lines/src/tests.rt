use crate::{Form, Header, ReadRefusal, bad_line, literals, read_header};
use ja_base::OrMemory;
use std::test::Fail;

const SIZES: Header = Header {
    vars: 3,
    inputs: 1,
    latches: 2,
    outputs: 0,
    gates: 0,
    bads: 0,
    constraints: 1,
    justice: 0,
    fairness: 0,
};

#[test]
fn headers_of_both_forms(rt: HostRuntime) {
    let mut rest: &[u8] = b"aig 3 1 2 0 0 0 1\n3\n";
    assert_eq!(rt; read_header(Form::Binary, &mut rest), Ok(SIZES));
    assert_eq!(rt; rest, b"3\n".as_slice());
    let mut rest: &[u8] = b"aig 4 1 2 0 0\n";
    let refused = read_header(Form::Binary, &mut rest);
    assert_eq!(rt;
        refused,
        Err(OrMemory::Refused(ReadRefusal::Header { at: 0 }))
    );
}

#[test]
fn lines_of_literals(rt: HostRuntime) -> Result<(), Fail> {
    let bytes = b"7\n002\n9";
    let mut rest: &[u8] = bytes;
    let lits = literals(rt.alloc(), 3, 2, bytes.len(), &mut rest)
        .ok()
        .ok_or("literals")?;
    assert_eq!(rt; lits.len(), 2);
    assert_eq!(rt; (lits.get(0).number(), lits.get(1).number()), (7, 2));
    assert_eq!(rt; rest, b"9".as_slice());
    let refused = literals(rt.alloc(), 3, 1, bytes.len(), &mut rest).err();
    assert_eq!(rt;
        refused,
        Some(OrMemory::Refused(ReadRefusal::Short { at: 7 }))
    );
    Ok(())
}

#[test]
fn lines_behind_the_gates(rt: HostRuntime) {
    let table: [(&[u8], Option<&[u8]>); 5] = [
        (b"", None),
        (b"i0 a\n\nl1 b", None),
        (b"c0 a\nc\nx", None),
        (b"l1 \nl2 \nx", Some(b"l2 \nx")),
        (b"\n\nx", Some(b"x")),
    ];
    for (bytes, want) in table {
        assert_eq!(rt; bad_line(&SIZES, bytes), want, "at {bytes:?}");
    }
}
