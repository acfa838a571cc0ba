// The objects in memory that never fail, and memory that is not there.
use fut_io::{Failed, MemSink, Sink, SureSink, SureSource, read_all, write_all};
use fut_scalar::List;
use std::alloc::Global;

/// Whether a source gives a text in reads of three bytes.
fn gives_all(alloc: Global, text: &[u8]) -> bool {
    let Ok(list) = List::from_slice(alloc, text) else {
        return false;
    };
    match read_all(alloc, &mut SureSource::new(list, 3), 8) {
        Ok(bytes) => bytes.as_slice() == text,
        Err(_) => false,
    }
}

/// Whether a sink with room for four bytes takes so many and then fails.
fn takes_four(sink: &mut SureSink) -> bool {
    write_all(sink, b"abc").is_ok()
        && matches!(sink.write(b"de"), Ok(1))
        && matches!(sink.write(b"e"), Err(Failed))
        && sink.held() == b"abcd".as_slice()
}

/// Whether a sink is made that takes four bytes.
fn makes_sink(alloc: Global) -> bool {
    match SureSink::new(alloc, 4) {
        Ok(mut sink) => takes_four(&mut sink),
        Err(_) => false,
    }
}

#[test]
fn a_sure_source_gives_all(rt: HostRuntime) {
    assert!(rt; gives_all(rt.alloc(), b"abcdefgh"));
}

#[test]
fn a_sure_sink_takes_what_it_has_room_for(rt: HostRuntime) {
    assert!(rt; makes_sink(rt.alloc()));
}

#[test]
fn more_memory_than_there_is_is_refused(rt: HostRuntime) {
    assert!(rt; MemSink::new(rt.alloc(), u64::MAX, 1, List::new(rt.alloc())).is_err());
    assert!(rt; SureSink::new(rt.alloc(), u64::MAX).is_err());
}
