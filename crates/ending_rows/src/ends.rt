// Ends that move little at a time, fail, are full, or never fail.
use crate::edge::MISSING;
use flash_top::{Status, run};
use io_edge::{SureSink, SureSource};
use row_runs::{
    BLACK_AND_WHITE, CHECK, Ends, Page, WHOLE, bytes_of, first_wrong, is_told, run_between,
    words_of,
};
use sample_pages::banner;
use std::alloc::Global;
use std::test::Fail;

/// A page of 69 bytes.
const EMPTY: Page = Page::Styled("", "");

/// What is told of it.
const PASSES: &[u8] = b"pass: frames 1\n";

/// The lamp that flashes.
const LAMP: Page = Page::Lamp("#000000", "#ffffff", "250ms steps(1) 20");

#[test]
fn nothing_is_lost_between_pieces(rt: HostRuntime) -> Result<(), Fail> {
    for read in [1, 7, 4096] {
        let ends = Ends {
            read,
            written: 1,
            ..WHOLE
        };
        let told = run_between(rt.alloc(), CHECK, banner(), None, ends)?;
        assert!(rt;
            is_told(&told, Status::Pass, b"pass: frames 390\n"),
            "{read}"
        );
    }
    Ok(())
}

/// Whether `check` of the empty page can't read where this call of the source fails, or passes.
fn is_read_as(alloc: Global, read: u32, failing: u32, passes: bool) -> Result<bool, Fail> {
    let page = bytes_of(alloc, EMPTY)?;
    let ends = Ends {
        read,
        failing,
        ..WHOLE
    };
    let told = run_between(alloc, CHECK, page.as_slice(), None, ends)?;
    if passes {
        return Ok(is_told(&told, Status::Pass, PASSES));
    }
    Ok(is_told(&told, Status::ReadFault, b"cannot read\n"))
}

// One call opens the page, each of 69 gives a byte, and one tells the end.
#[test]
fn each_call_of_the_source_may_fail(rt: HostRuntime) -> Result<(), Fail> {
    for failing in 1..=72 {
        assert!(rt;
            is_read_as(rt.alloc(), 1, failing, failing == 72)?,
            "{failing}"
        );
    }
    // With nothing cut the third call tells the end.
    for failing in 1..=4 {
        assert!(rt;
            is_read_as(rt.alloc(), 0, failing, failing == 4)?,
            "{failing}"
        );
    }
    Ok(())
}

/// Whether `check` of the empty page fills a sink of so much room with the front of its text, or passes.
fn is_written_as(alloc: Global, room: u32) -> Result<bool, Fail> {
    let page = bytes_of(alloc, EMPTY)?;
    let told = run_between(alloc, CHECK, page.as_slice(), None, Ends { room, ..WHOLE })?;
    let front = PASSES.len().min(room as usize);
    let status = if front < PASSES.len() {
        Status::WriteFault
    } else {
        Status::Pass
    };
    Ok(is_told(&told, status, &PASSES[..front]))
}

#[test]
fn each_room_takes_the_front_of_a_text(rt: HostRuntime) -> Result<(), Fail> {
    for room in 0..=15 {
        assert!(rt; is_written_as(rt.alloc(), room)?, "{room}");
    }
    Ok(())
}

/// How `check` of a page ends where neither source nor sink can fail, and how many bytes it writes.
fn sure_end(alloc: Global, page: Page) -> Result<(Status, u64), Fail> {
    let page = bytes_of(alloc, page)?;
    let words = words_of(alloc, CHECK)?;
    let mut source = SureSource::new(alloc);
    source.add("p", page.as_slice())?;
    let mut sink = SureSink::new();
    let status = run(alloc, words.as_slice(), &mut source, &mut sink);
    Ok((status, sink.taken()))
}

#[test]
fn ends_that_never_fail(rt: HostRuntime) -> Result<(), Fail> {
    let written = BLACK_AND_WHITE.len() as u64;
    assert_eq!(rt; sure_end(rt.alloc(), LAMP)?, (Status::Bad, written));
    assert_eq!(rt; sure_end(rt.alloc(), EMPTY)?, (Status::Pass, 15));
    Ok(())
}

/// Whether `verify` of the lamp can't read where this call of the source fails, or accepts its witness.
fn is_verified_as(alloc: Global, failing: u32, accepts: bool) -> Result<bool, Fail> {
    let page = bytes_of(alloc, LAMP)?;
    let witness = Some(BLACK_AND_WHITE.as_bytes());
    let ends = Ends { failing, ..WHOLE };
    let told = run_between(
        alloc,
        "verify p w 1024x768 60",
        page.as_slice(),
        witness,
        ends,
    )?;
    if accepts {
        return Ok(is_told(&told, Status::Pass, b"accepted: start 0, area 87296\n"));
    }
    Ok(is_told(&told, Status::ReadFault, b"cannot read\n"))
}

// The first three calls are of the page.
#[test]
fn reading_of_a_witness_may_fail(rt: HostRuntime) -> Result<(), Fail> {
    for failing in 4..=7 {
        assert!(rt;
            is_verified_as(rt.alloc(), failing, failing == 7)?,
            "{failing}"
        );
    }
    assert_eq!(rt; first_wrong(rt.alloc(), &MISSING)?, None);
    Ok(())
}
