// What no clause says: that calls succeed with ample memory, how much a read is offered, and that the
// ends of the system are the system's.
ghost use Rattle.std.specs.Prelude.{◌≤◌};

use io_edge::{
    FileSource, MemorySink, MemorySource, ReadAllFault, StdoutSink, SureSink, SureSource, read_all,
    write_all,
};
use std::alloc::Global;
use std::test::Fail;

#[test]
fn reads_what_was_added_last(rt: HostRuntime) -> Result<(), Fail> {
    let mut source = MemorySource::new(rt.alloc());
    source.add("page", b"old")?;
    source.add("other", b"")?;
    source.add("page", b"newer")?;
    let bytes = read_all(rt.alloc(), &mut source, "page", 5)?;
    assert_eq!(rt; bytes.as_slice(), b"newer".as_slice());
    let longer = read_all(rt.alloc(), &mut source, "page", 4);
    assert_eq!(rt; longer.err(), Some(ReadAllFault::TooLong));
    let missing = read_all(rt.alloc(), &mut source, "gone", 5);
    assert_eq!(rt; missing.err(), Some(ReadAllFault::ReadFault));
    Ok(())
}

// One call opens, and a read that gives nothing tells the end: so the fourth call comes only where
// the bytes take two reads.
#[test]
fn offers_4096_bytes_to_a_read(rt: HostRuntime) -> Result<(), Fail> {
    for (length, fault) in [(4096, None), (4097, Some(ReadAllFault::ReadFault))] {
        let bytes = vec![in rt.alloc(); 0u8; length]?;
        let mut source = MemorySource::new(rt.alloc());
        source.add("page", bytes.as_slice())?;
        source.fail_at(4)?;
        let answer = read_all(rt.alloc(), &mut source, "page", 1_000_000);
        assert_eq!(rt; answer.err(), fault, "at {length}");
    }
    Ok(())
}

#[test]
fn writes_what_fits(rt: HostRuntime) -> Result<(), Fail> {
    let mut sink = MemorySink::new(rt.alloc(), 8)?;
    sink.fail_at(3)?;
    assert!(rt; write_all(&mut sink, b"first").is_ok());
    assert!(rt; write_all(&mut sink, b"second").is_err());
    assert_eq!(rt; sink.bytes(), b"firstsec".as_slice());
    Ok(())
}

/// What is written of a text that is read and written in pieces of at most so many bytes.
fn moved_by(alloc: Global, most: u32) -> Result<Vec<u8>, Fail>
    requires { 1 ≤ most }
{
    let mut source = MemorySource::new(alloc);
    source.add("page", b"in several pieces")?;
    source.dole(most);
    let bytes = read_all(alloc, &mut source, "page", 17)?;
    let mut sink = MemorySink::new(alloc, 17)?;
    sink.dole(most);
    write_all(&mut sink, bytes.as_slice())?;
    Ok(sink.bytes().to_vec(alloc)?)
}

#[test]
fn loses_nothing_between_pieces(rt: HostRuntime) -> Result<(), Fail> {
    let text = b"in several pieces".as_slice();
    assert_eq!(rt; moved_by(rt.alloc(), 1)?.as_slice(), text);
    assert_eq!(rt; moved_by(rt.alloc(), 7)?.as_slice(), text);
    assert_eq!(rt; moved_by(rt.alloc(), 4096)?.as_slice(), text);
    Ok(())
}

// One call opens, three give a byte each, and one tells the end.
#[test]
fn gives_a_byte_a_call(rt: HostRuntime) -> Result<(), Fail> {
    for (call, fault) in [(5, Some(ReadAllFault::ReadFault)), (6, None)] {
        let mut source = MemorySource::new(rt.alloc());
        source.add("page", b"abc")?;
        source.dole(1);
        source.fail_at(call)?;
        let answer = read_all(rt.alloc(), &mut source, "page", 9);
        assert_eq!(rt; answer.err(), fault, "at {call}");
    }
    Ok(())
}

#[test]
fn never_fails(rt: HostRuntime) -> Result<(), Fail> {
    let mut source = SureSource::new(rt.alloc());
    source.add("page", b"old")?;
    source.add("page", b"newer")?;
    let bytes = read_all(rt.alloc(), &mut source, "page", 5)?;
    assert_eq!(rt; bytes.as_slice(), b"newer".as_slice());
    let missing = read_all(rt.alloc(), &mut source, "gone", 5)?;
    assert_eq!(rt; missing.len(), 0);
    let mut sink = SureSink::new();
    assert!(rt; write_all(&mut sink, bytes.as_slice()).is_ok());
    assert!(rt; write_all(&mut sink, bytes.as_slice()).is_ok());
    assert_eq!(rt; sink.taken(), 10);
    Ok(())
}

#[test]
fn reads_and_writes_at_the_system(rt: HostRuntime) -> Result<(), Fail> {
    let mut source = FileSource::new(&rt);
    let empty = read_all(rt.alloc(), &mut source, "/dev/null", 9)?;
    assert_eq!(rt; empty.len(), 0);
    let endless = read_all(rt.alloc(), &mut source, "/dev/zero", 9);
    assert_eq!(rt; endless.err(), Some(ReadAllFault::TooLong));
    let missing = read_all(rt.alloc(), &mut source, "/dev/null/no-such-file", 9);
    assert_eq!(rt; missing.err(), Some(ReadAllFault::ReadFault));
    assert!(rt; write_all(&mut StdoutSink::new(&rt), b"written\n").is_ok());
    Ok(())
}
