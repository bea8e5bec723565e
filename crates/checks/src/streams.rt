// Sources and sinks.
use rs_io::{MemSink, MemSource, ReadAllError, Sink, SinkError, StdSink, StdSource, read_all};
use std::io::Cursor;
use std::test::Fail;

#[test]
fn a_failed_put_is_left_out(rt: HostRuntime) -> Result<(), Fail> {
    let alloc = rt.alloc();
    let mut sink = MemSink::new(alloc, vec![in alloc; 2]?);
    sink.put(b"ab")?;
    assert_eq!(rt; sink.put(b"c"), Err(SinkError::Failed));
    sink.put(b"d")?;
    assert_eq!(rt; sink.bytes(), b"abd".as_slice());
    Ok(())
}

#[test]
fn a_failed_take_ends_the_reading(rt: HostRuntime) -> Result<(), Fail> {
    let alloc = rt.alloc();
    let mut source = MemSource::new(vec![in alloc; 7, 8]?, vec![in alloc; 2]?);
    let read = read_all(alloc, &mut source, 2);
    assert!(rt; matches!(read, Err(ReadAllError::ReadFault)));
    Ok(())
}

#[test]
fn a_reader_and_a_writer_are_a_source_and_a_sink(rt: HostRuntime) -> Result<(), Fail> {
    let alloc = rt.alloc();
    let mut source = StdSource::new(b"abc".as_slice());
    assert_eq!(rt;
        read_all(alloc, &mut source, 3)?.as_slice(),
        b"abc".as_slice()
    );
    let mut sink = StdSink::new(Vec::new(alloc));
    sink.put(b"abc")?;
    Ok(())
}

#[test]
fn a_writer_that_takes_nothing_is_a_fault(rt: HostRuntime) -> Result<(), Fail> {
    let mut sink = StdSink::new(Cursor::new([0_u8; 2]));
    sink.put(b"ab")?;
    assert_eq!(rt; sink.put(b"c"), Err(SinkError::Failed));
    Ok(())
}
