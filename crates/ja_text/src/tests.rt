use crate::{Bad, Cursor, Text, line, number, row, word};
use std::test::Fail;

#[test]
fn numbers_that_are_read(rt: HostRuntime) {
    let table: [(&[u8], Option<(u64, usize)>); 17] = [
        (b"007 ", Some((7, 1))),
        (b"0", Some((0, 0))),
        (b"000", Some((0, 0))),
        (b"12a", Some((12, 1))),
        (b"9\n", Some((9, 1))),
        (b"18446744073709551614", Some((u64::MAX - 1, 0))),
        (b"18446744073709551615\n", Some((u64::MAX, 1))),
        (b"18446744073709551616", Some((u64::MAX, 0))),
        (b"99999999999999999999999", Some((u64::MAX, 0))),
        (b"00018446744073709551615", Some((u64::MAX, 0))),
        (b"", None),
        (b" 1", None),
        (b"-1", None),
        (b"+1", None),
        (b"/", None),
        (b":", None),
        (b"\n1", None),
    ];
    for (bytes, want) in table {
        let read = number(bytes).map(|(n, rest)| (n, rest.len()));
        assert_eq!(rt; read, want, "at {bytes:?}");
    }
}

#[test]
fn rows_that_are_read(rt: HostRuntime) {
    let table: [(&[u8], &[u64], usize); 15] = [
        (b"5\n", &[5], 0),
        (b"4 2 6\n8\n", &[4, 2, 6], 2),
        (b"007 0\n\n", &[7, 0], 1),
        (b"1 2 3 4 5 6 7 8 9\nc", &[1, 2, 3, 4, 5, 6, 7, 8, 9], 1),
        (b"99999999999999999999 1\n", &[u64::MAX, 1], 0),
        (b"1 2 3 4 5 6 7 8 9 10\n", &[], 0),
        (b"1 2 3 4 5 6 7 8 9 \n", &[], 0),
        (b"1  2\n", &[], 0),
        (b"1 2 \n", &[], 0),
        (b" 1\n", &[], 0),
        (b"1\r\n", &[], 0),
        (b"1\t2\n", &[], 0),
        (b"1 2", &[], 0),
        (b"\n", &[], 0),
        (b"", &[], 0),
    ];
    for (bytes, want, left) in table {
        match row(bytes) {
            Some((numbers, rest)) => {
                assert_eq!(rt; numbers.as_slice(), want, "at {bytes:?}");
                assert_eq!(rt; rest.len(), left, "at {bytes:?}");
            }
            None => assert!(rt; want.is_empty(), "at {bytes:?}"),
        }
    }
}

#[test]
fn lines_that_are_read(rt: HostRuntime) {
    let table: [(&[u8], Option<(&[u8], &[u8])>); 6] = [
        (b"hold b0\nfail", Some((b"hold b0", b"fail"))),
        (b"a\r\n\n", Some((b"a\r", b"\n"))),
        (b"\n", Some((b"", b""))),
        (b"\n.\n", Some((b"", b".\n"))),
        (b"no end", None),
        (b"", None),
    ];
    for (bytes, want) in table {
        assert_eq!(rt; line(bytes), want, "at {bytes:?}");
    }
}

#[test]
fn words_that_are_read(rt: HostRuntime) {
    let table: [(&[u8], &[u8], Option<usize>); 5] = [
        (b"hold b3", b"hold b", Some(1)),
        (b"hold b", b"hold b", Some(0)),
        (b"hold", b"hold b", None),
        (b"Hold b3", b"hold b", None),
        (b"x", b"", Some(1)),
    ];
    for (bytes, letters, want) in table {
        assert_eq!(rt;
            word(bytes, letters).map(|rest| rest.len()),
            want,
            "at {bytes:?}"
        );
    }
}

#[test]
fn cursor_stays_where_it_refuses(rt: HostRuntime) {
    let mut cursor = Cursor::new(b"10 x\n\n7");
    assert_eq!(rt; cursor.space(), Err(Bad { at: 0 }));
    assert_eq!(rt; cursor.newline(), Err(Bad { at: 0 }));
    assert_eq!(rt; cursor.number(), Ok(10));
    assert_eq!(rt; cursor.number(), Err(Bad { at: 2 }));
    assert_eq!(rt; cursor.space(), Ok(()));
    assert_eq!(rt; cursor.at(), 3);
    assert_eq!(rt; cursor.number(), Err(Bad { at: 3 }));
    assert!(rt; cursor.line() == Ok(b"x"));
    assert_eq!(rt; cursor.newline(), Ok(()));
    assert!(rt; cursor.line() == Err(Bad { at: 6 }));
    assert_eq!(rt; cursor.number(), Ok(7));
    assert_eq!(rt; cursor.number(), Err(Bad { at: 7 }));
    assert_eq!(rt; cursor.at(), 7);
}

#[test]
fn text_is_written(rt: HostRuntime) -> Result<(), Fail> {
    let mut text = Text::new(rt.alloc());
    assert!(rt; text.bytes().is_empty());
    text.push(b"draw b")?;
    text.number(0)?;
    text.push(b" at ")?;
    text.number(1007)?;
    text.push(b"")?;
    text.push(b"\n")?;
    text.number(u64::MAX)?;
    assert_eq!(rt;
        text.bytes(),
        b"draw b0 at 1007\n18446744073709551615".as_slice()
    );
    Ok(())
}
