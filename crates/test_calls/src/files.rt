// A reader, a writer and the loader over real files.
use fut_io::{FileLoader, LoadErr, Loader, ReadErr, StdSink, StdSource, read_all, write_all};
use fut_scalar::List;
use std::fs;

/// What is read of a file. One that is not there fails.
fn read(rt: &HostRuntime, name: &str, most: u64) -> Result<List<u8>, ReadErr> {
    match fs::open(rt, name) {
        Ok(file) => read_all(rt.alloc(), &mut StdSource::new(file), most),
        Err(_) => Err(ReadErr::Failed),
    }
}

/// Whether a file is read as this text.
fn is_read(rt: &HostRuntime, name: &str, most: u64, text: &[u8]) -> bool {
    match read(rt, name, most) {
        Ok(bytes) => bytes.as_slice() == text,
        Err(_) => false,
    }
}

/// Why a file is not read.
fn refusal(rt: &HostRuntime, name: &str, most: u64) -> Option<ReadErr> {
    match read(rt, name, most) {
        Ok(_) => None,
        Err(error) => Some(error),
    }
}

/// How many bytes are loaded of a file, or why none are.
fn load(rt: &HostRuntime, name: &str) -> Result<usize, LoadErr> {
    match FileLoader::new(rt).load(rt.alloc(), name) {
        Ok(bytes) => Ok(bytes.len()),
        Err(error) => Err(error),
    }
}

/// Writes a text into a new file in three parts, one of them empty, and says whether that was done.
fn write_parts(rt: &HostRuntime, name: &str) -> bool {
    match fs::create(rt, name) {
        Ok(file) => {
            let mut sink = StdSink::new(file);
            write_all(&mut sink, b"13i64").is_ok()
                && write_all(&mut sink, b"").is_ok()
                && write_all(&mut sink, b"\n").is_ok()
        }
        Err(_) => false,
    }
}

/// Whether a file that is opened to be read takes nothing.
fn takes_nothing(rt: &HostRuntime, name: &str) -> bool {
    match fs::open(rt, name) {
        Ok(file) => write_all(&mut StdSink::new(file), b"13i64").is_err(),
        Err(_) => false,
    }
}

/// Writes a file of so many blanks, and says whether that was done.
fn write_blanks(rt: &HostRuntime, name: &str, count: usize) -> bool {
    match vec![in rt.alloc(); b' '; count] {
        Ok(blanks) => fs::write(rt, name, blanks.as_slice()).is_ok(),
        Err(_) => false,
    }
}

#[test]
fn a_real_reader_is_a_source(rt: HostRuntime) {
    assert!(rt; fs::write(&rt, "source.txt", "3 4\n").is_ok());
    assert!(rt; is_read(&rt, "source.txt", 4, b"3 4\n"));
    assert!(rt; is_read(&rt, "source.txt", 67_108_864, b"3 4\n"));
    assert!(rt; matches!(refusal(&rt, "source.txt", 3), Some(ReadErr::TooLong)));
    assert!(rt;
        matches!(refusal(&rt, ".", 4), Some(ReadErr::Failed)),
        "a folder cannot be read"
    );
    assert!(rt; fs::remove_file(&rt, "source.txt").is_ok());
}

#[test]
fn a_real_writer_is_a_sink(rt: HostRuntime) {
    assert!(rt; write_parts(&rt, "sink.txt"));
    assert!(rt; is_read(&rt, "sink.txt", 6, b"13i64\n"));
    assert!(rt; takes_nothing(&rt, "sink.txt"));
    assert!(rt; fs::remove_file(&rt, "sink.txt").is_ok());
}

#[test]
fn real_files_are_loaded(rt: HostRuntime) {
    assert!(rt; write_blanks(&rt, "most.fut", 4_194_304));
    assert!(rt; write_blanks(&rt, "over.fut", 4_194_305));
    assert!(rt; matches!(load(&rt, "most.fut"), Ok(4_194_304)));
    assert!(rt; matches!(load(&rt, "over.fut"), Err(LoadErr::TooLong)));
    assert!(rt; matches!(load(&rt, "no.fut"), Err(LoadErr::Failed)));
    assert!(rt;
        matches!(load(&rt, "."), Err(LoadErr::Failed)),
        "a folder cannot be loaded"
    );
    assert!(rt; fs::remove_file(&rt, "most.fut").is_ok());
    assert!(rt; fs::remove_file(&rt, "over.fut").is_ok());
}
