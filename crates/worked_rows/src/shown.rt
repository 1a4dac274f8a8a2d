// The words that open no file: how light a colour is, the page that is made from a number, and what isn't understood.
use flash_top::Status;
use row_runs::{is_told, run_on};
use std::alloc::Global;
use std::test::Fail;

/// Words, and the text that they must have.
type Told = (&'static str, &'static str);

/// Colours, and how light they are. The least share of red that is saturated lies between the last two.
const LIGHTS: [Told; 8] = [
    (
        "light ffffff",
        "lin 4294967296 4294967296 4294967296, luma 42949672960000, red no\n",
    ),
    (
        "light FF0000",
        "lin 4294967296 0 0, luma 9131100471296, red yes\n",
    ),
    (
        "light fF0000",
        "lin 4294967296 0 0, luma 9131100471296, red yes\n",
    ),
    (
        "light 0a0a0a",
        "lin 13036384 13036384 13036384, luma 130363840000, red no\n",
    ),
    ("light 000000", "lin 0 0 0, luma 0, red no\n"),
    (
        "light 010000",
        "lin 1303638 0 0, luma 2771534388, red yes\n",
    ),
    (
        "light ff8800",
        "lin 4294967296 1057426646 0, luma 16693815843488, red yes\n",
    ),
    (
        "light ff8900",
        "lin 4294967296 1074421651 0, luma 16815364119248, red no\n",
    ),
];

/// Pages that are made from a number, judged at few frames a second.
const NUMBERS: [Told; 1] = [("demo 7 1024x768 10", "demo 7: boxes 64\npass: frames 20\n")];

/// Words that are no command, or spell no setup, colour, number or rate.
const NOT_UNDERSTOOD: [Told; 27] = [
    ("", "words: not understood\n"),
    ("check p 0x768 60", "words: not understood\n"),
    ("check p 1024x768 060", "words: not understood\n"),
    ("check p 1024x768 241", "words: not understood\n"),
    ("check p 1024x768 1000/1001", "words: not understood\n"),
    ("check p 1024x768 60000/1002", "words: not understood\n"),
    ("check p 1024x768 240001/1001", "words: not understood\n"),
    ("check p 1024x768 60/1001", "words: not understood\n"),
    ("check p 1024x768 060000/1001", "words: not understood\n"),
    ("check p 1024x768 60000/", "words: not understood\n"),
    ("check p 1024x768 /1001", "words: not understood\n"),
    (
        "check p 1024x768 60000/1001/1001",
        "words: not understood\n",
    ),
    ("light", "words: not understood\n"),
    ("light fff", "words: not understood\n"),
    ("light #ffffff", "words: not understood\n"),
    ("light FFFFFG", "words: not understood\n"),
    ("light +fffff", "words: not understood\n"),
    ("light fffffff", "words: not understood\n"),
    ("light ffffff ffffff", "words: not understood\n"),
    ("Light ffffff", "words: not understood\n"),
    ("demo", "words: not understood\n"),
    ("demo 4294967296 1024x768 60", "words: not understood\n"),
    ("demo -1 1024x768 60", "words: not understood\n"),
    ("demo 07 1024x768 60", "words: not understood\n"),
    ("demo 7 1024x768", "words: not understood\n"),
    ("demo 7 1024x768 0", "words: not understood\n"),
    ("demo 7 1024x768 60 60", "words: not understood\n"),
];

/// The first words that aren't told with this status and their text.
fn first_wrong(alloc: Global, status: Status, rows: &[Told]) -> Result<Option<&'static str>, Fail> {
    for (words, text) in rows {
        let told = run_on(alloc, words, b"")?;
        if !is_told(&told, status, text.as_bytes()) {
            return Ok(Some(*words));
        }
    }
    Ok(None)
}

#[test]
fn words_without_a_page_are_told(rt: HostRuntime) -> Result<(), Fail> {
    assert_eq!(rt; first_wrong(rt.alloc(), Status::Pass, &LIGHTS)?, None);
    assert_eq!(rt; first_wrong(rt.alloc(), Status::Pass, &NUMBERS)?, None);
    assert_eq!(rt;
        first_wrong(rt.alloc(), Status::Words, &NOT_UNDERSTOOD)?,
        None
    );
    Ok(())
}
