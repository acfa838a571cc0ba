//! The program: makes the real words, files, input, out and err, and hands them to the call that does the work.
#![tactic(auto)]

use fut_io::{FileLoader, StdSink, StdSource, StdWords};
use futhark_command::run_command_line;
use futhark_status::code;
use std::process::ExitCode;

fn main(rt: HostRuntime) -> ExitCode {
    let words = StdWords::new(&rt);
    let mut loader = FileLoader::new(&rt);
    let mut input = StdSource::new(rt.stdin());
    let mut out = StdSink::new(rt.stdout());
    let mut err = StdSink::new(rt.stderr());
    let status = run_command_line(
        rt.alloc(),
        &words,
        &mut loader,
        &mut input,
        &mut out,
        &mut err,
    );
    ExitCode::from(code(&status))
}
