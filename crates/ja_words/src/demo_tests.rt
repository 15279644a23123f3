use crate::tests::words_of;
use crate::{Demo, Words, read_words};
use ja_base::OrMemory;
use std::test::Fail;

/// Words in form, and what `demo` is asked for: the ring's latches, and the workers.
const DEMOS: [(&[&str], u32, u32); 12] = [
    (&["demo", "3"], 3, 1),
    (&["demo", "1000"], 1000, 1),
    (&["demo", "4", "--workers", "8"], 4, 8),
    (&["demo", "--workers", "8", "4"], 4, 8),
    (&["demo", "4", "--workers=8"], 4, 8),
    (&["demo", "--workers=8", "4"], 4, 8),
    (&["demo", "4", "--workers", "008"], 4, 8),
    (&["demo", "4", "--workers", "1"], 4, 1),
    (&["demo", "0003"], 3, 1),
    (&["demo", "0000000000000000000000000000007"], 7, 1),
    (&["demo", "--", "3"], 3, 1),
    (&["demo", "--workers", "2", "--", "3"], 3, 2),
];

/// Words that are in no form.
const USAGE: [&[&str]; 35] = [
    &["demo"],
    &["demo", ""],
    &["demo", "0"],
    &["demo", "2"],
    &["demo", "1001"],
    &["demo", "4294967299"],
    &["demo", "18446744073709551619"],
    &["demo", "-3"],
    &["demo", "--", "-3"],
    &["demo", "+3"],
    &["demo", "3 "],
    &["demo", "3.0"],
    &["demo", "three"],
    &["demo", "3", "4"],
    &["demo", "--workers", "2"],
    &["demo", "3", "--workers"],
    &["demo", "3", "--workers", "0"],
    &["demo", "3", "--workers", "9"],
    &["demo", "3", "--workers", "18446744073709551617"],
    &["demo", "3", "--workers", "4294967297"],
    &["demo", "3", "--workers", "-1"],
    &["demo", "3", "--workers", "+1"],
    &["demo", "3", "--workers", "one"],
    &["demo", "3", "--workers", ""],
    &["demo", "3", "--workers="],
    &["demo", "3", "--workers", "2", "--workers", "2"],
    &["demo", "3", "--workers=2", "--workers=2"],
    &["demo", "3", "--", "--workers", "2"],
    &["demo", "3", "--budget", "9"],
    &["demo", "3", "--fail-fast"],
    &["demo", "3", "--journal"],
    &["demo", "--help"],
    &["Demo", "3"],
    &["demo ", "3"],
    &["3", "demo"],
];

#[test]
fn demos(rt: HostRuntime) -> Result<(), Fail> {
    let alloc = rt.alloc();
    for (words, n, workers) in &DEMOS {
        let words = words_of(alloc, words)?;
        let read = read_words(alloc, words.as_slice()).map_err(|_| "usage")?;
        let (n, workers) = (*n, *workers);
        assert_eq!(rt; read, Words::Demo(Demo { n, workers }));
    }
    Ok(())
}

#[test]
fn other_demos_are_usage(rt: HostRuntime) -> Result<(), Fail> {
    let alloc = rt.alloc();
    for (number, words) in USAGE.into_iter().enumerate() {
        let words = words_of(alloc, words)?;
        let refused = matches!(
            read_words(alloc, words.as_slice()),
            Err(OrMemory::Refused(_))
        );
        assert!(rt; refused, "{number}");
    }
    Ok(())
}
