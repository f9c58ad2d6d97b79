//! Whole inputs and outputs through each kind of source and sink, with failures where they are asked for.
use std::test::Fail;
use surge_io::{
    Failed, Line, MemorySink, MemorySource, Page, ReadFault, SteadySource, StreamSink,
    StreamSource, put, whole,
};

#[test]
fn whole_reads_pieces_to_the_end_or_the_limit(rt: HostRuntime) -> Result<(), Fail> {
    // piece, failing call, limit, and what is read of the 12 bytes: calls give 5, 5, 2 and 0 of them
    for (piece, failing, limit, want) in [
        (5, 5, 100, Some(12)),
        (5, 4, 100, None),
        (5, 1, 100, None),
        (100, 3, 12, Some(12)),
        (5, 2, 3, Some(4)),
        (5, 2, 5, None),
        (1, 1, 0, None),
        (1, 2, 0, Some(1)),
    ] {
        assert!(rt; piece >= 1 && limit <= 100);
        let bytes = b"water hammer".to_vec(rt.alloc())?;
        let failing = [failing].to_vec(rt.alloc())?;
        let mut source = MemorySource::over(bytes, piece, failing);
        match whole(rt.alloc(), &mut source, limit) {
            Ok(read) => {
                let text = b"water hammer";
                assert_eq!(rt; Some(read.len()), want, "limit {limit}");
                assert!(rt; text.starts_with(read.as_slice()), "limit {limit}");
            }
            Err(fault) => {
                assert_eq!(rt; fault, ReadFault::Failed);
                assert_eq!(rt; want, None, "limit {limit}");
            }
        }
    }
    Ok(())
}

#[test]
fn put_fails_at_a_listed_call_and_in_a_full_sink(rt: HostRuntime) -> Result<(), Fail> {
    let failing = [1].to_vec(rt.alloc())?;
    let mut sink = MemorySink::make(rt.alloc(), 20, failing)?;
    for (want, held) in [
        (Err(Failed), ""),
        (Ok(()), "water hammer"),
        (Err(Failed), "water hammerwater ha"),
    ] {
        assert_eq!(rt; put(&mut sink, b"water hammer"), want);
        assert_eq!(rt; sink.bytes(), held.as_bytes());
    }
    Ok(())
}

#[test]
fn a_steady_source_is_read_whole(rt: HostRuntime) -> Result<(), Fail> {
    let bytes = b"water hammer".to_vec(rt.alloc())?;
    let mut source = SteadySource::over(bytes);
    let read = whole(rt.alloc(), &mut source, 12)?;
    assert_eq!(rt; read.as_slice(), b"water hammer".as_slice());
    Ok(())
}

#[test]
fn a_stream_is_read_whole(rt: HostRuntime) -> Result<(), Fail> {
    let mut source = StreamSource::over(b"water hammer".as_slice());
    let read = whole(rt.alloc(), &mut source, 100)?;
    assert_eq!(rt; read.as_slice(), b"water hammer".as_slice());
    Ok(())
}

#[test]
fn a_stream_takes_all_until_its_room_ends(rt: HostRuntime) -> Result<(), Fail> {
    let mut room = [0u8; 20];
    let mut sink = StreamSink::over(room.as_mut_slice());
    assert_eq!(rt; put(&mut sink, b"water hammer"), Ok(()));
    assert_eq!(rt; put(&mut sink, b"water hammer"), Err(Failed));
    drop(sink);
    assert_eq!(rt; room.as_slice(), b"water hammerwater ha".as_slice());
    Ok(())
}

#[test]
fn a_page_writes_once_it_is_full_and_loses_what_it_could_not_write(
    rt: HostRuntime,
) -> Result<(), Fail> {
    let failing = [2].to_vec(rt.alloc())?;
    let mut sink = MemorySink::make(rt.alloc(), 20_000, failing)?;
    let mut page = Page::new();
    // 682 pieces of 12 bytes fit into the 8,192 bytes
    for _ in 0..1_000 {
        assert_eq!(rt; page.add(&mut sink, b"water hammer"), Ok(()));
    }
    assert_eq!(rt; sink.bytes().len(), 8_184);
    assert_eq!(rt; page.flush(&mut sink), Err(Failed));
    let mut line = Line::new();
    line.push(b"surge");
    assert_eq!(rt; page.add(&mut sink, line.as_bytes()), Ok(()));
    assert_eq!(rt; page.flush(&mut sink), Ok(()));
    assert_eq!(rt; sink.bytes().len(), 8_189);
    assert!(rt; sink.bytes().ends_with(b"hammersurge"));
    Ok(())
}

#[test]
fn a_piece_longer_than_a_page_goes_behind_what_waits(rt: HostRuntime) -> Result<(), Fail> {
    let failing = [].to_vec(rt.alloc())?;
    let mut sink = MemorySink::make(rt.alloc(), 20_000, failing)?;
    let long = vec![in rt.alloc(); b'x'; 9_000]?;
    let mut page = Page::new();
    assert_eq!(rt; page.add(&mut sink, b"surge"), Ok(()));
    assert_eq!(rt; sink.bytes().len(), 0);
    assert_eq!(rt; page.add(&mut sink, long.as_slice()), Ok(()));
    assert_eq!(rt; sink.bytes().len(), 9_005);
    assert!(rt; sink.bytes().starts_with(b"surgex"));
    Ok(())
}
