//! Each public call once, and each adapter over a reader or writer in memory.

use super::*;
use std::io::Cursor;
use std::test::Fail;

#[test]
fn statuses_have_their_numbers(rt: HostRuntime) {
    for (status, number) in [
        (Status::Ok, 0),
        (Status::BadWords, 2),
        (Status::ReadFault, 3),
        (Status::WriteFault, 4),
        (Status::OutOfMemory, 5),
        (Status::BadScript, 6),
        (Status::TooLong, 7),
        (Status::PoolFault, 8),
        (Status::IndexFull, 9),
    ] {
        assert_eq!(rt; status.code(), number);
    }
}

#[test]
fn bytes_in_are_read_to_their_end(rt: HostRuntime) -> Result<(), Fail> {
    let alloc = rt.alloc();
    for (limit, failing, want) in [
        (8, 0, Ok(b"c1 get 5".as_slice())),
        (7, 0, Err(ReadAllFault::Long)),
        (8, 1, Err(ReadAllFault::Read)),
        (8, 2, Err(ReadAllFault::Read)),
        (8, 3, Ok(b"c1 get 5".as_slice())),
    ] {
        let bytes = Vec::from_slice(alloc, b"c1 get 5")?;
        let mut source = BytesIn::new(bytes, vec![in alloc; failing]?);
        match (read_all(alloc, &mut source, limit), want) {
            (Ok(read), Ok(want)) => assert_eq!(rt; read.as_slice(), want),
            (Err(fault), Err(want)) => assert_eq!(rt; fault, want),
            _ => assert!(rt; false, "limit {limit}, failing {failing}"),
        }
    }
    Ok(())
}

#[test]
fn bytes_out_take_what_fits(rt: HostRuntime) -> Result<(), Fail> {
    let alloc = rt.alloc();
    for (room, failing, done, written) in [
        (10, 0, true, b"bad words\n".as_slice()),
        (9, 0, false, b"bad words".as_slice()),
        (10, 1, false, b"".as_slice()),
    ] {
        let mut sink = BytesOut::new(alloc, room, vec![in alloc; failing]?)?;
        assert_eq!(rt; write_all(&mut sink, b"bad words\n").is_ok(), done);
        assert_eq!(rt; sink.bytes(), written);
    }
    Ok(())
}

#[test]
fn a_reader_is_a_source(rt: HostRuntime) -> Result<(), Fail> {
    let mut source = StdIn::new(Cursor::new(b"c1 get 5".as_slice()));
    let read = read_all(rt.alloc(), &mut source, 8)?;
    assert_eq!(rt; read.as_slice(), b"c1 get 5".as_slice());
    Ok(())
}

#[test]
fn a_writer_is_a_sink(rt: HostRuntime) -> Result<(), Fail> {
    let mut room = [b'.'; 5];
    {
        let mut sink = StdOut::new(room.as_mut_slice());
        assert!(rt; write_all(&mut sink, b"map 1").is_ok());
        assert!(rt; write_all(&mut sink, b"\n").is_err());
    }
    assert_eq!(rt; room.as_slice(), b"map 1".as_slice());
    Ok(())
}
