// A call of the program over objects in memory.
use crate::texts::Text;
use fut_io::{MemLoader, MemSink, MemSource, MemWords};
use futhark_command::run_command_line;
use futhark_status::code;
use std::alloc::Global;
use test_shown::Shown;

/// What came of a call: its status, and what it wrote on out and on err.
#[derive(Drop)]
pub struct Came {
    pub status: u8,
    pub out: Text,
    pub err: Text,
}

impl Came {
    /// Of no call.
    pub fn new(alloc: Global) -> Came {
        Came {
            status: 0,
            out: Text::new(alloc),
            err: Text::new(alloc),
        }
    }

    /// Shows a status and what came on out and on err.
    pub fn show(&self, shown: &mut Shown) {
        shown.begin(false);
        shown.numbered("status ", u64::from(self.status));
        shown.bytes_behind("; out: ", self.out.bytes.as_slice());
        shown.bytes_behind("; err: ", self.err.bytes.as_slice());
    }
}

/// What a call is given, and what it writes on.
#[derive(Drop)]
pub struct Stage {
    pub words: MemWords,
    pub loader: MemLoader,
    pub input: MemSource,
    pub out: MemSink,
    pub err: MemSink,
}

impl Stage {
    /// Calls the program, and keeps what comes in the place of what came before.
    pub fn play(&mut self, alloc: Global, came: &mut Came) {
        let status = run_command_line(
            alloc,
            &self.words,
            &mut self.loader,
            &mut self.input,
            &mut self.out,
            &mut self.err,
        );
        came.status = code(&status);
        came.out.set(self.out.held());
        came.err.set(self.err.held());
    }
}
