//! The program `tapsim`: it hands its words and its standard streams to the top call, and ends with its status.
#![tactic(auto)]

use std::alloc::Global;
use std::env;
use std::io::{self, BufReader, ErrorKind};
use std::process::ExitCode;
use tap_outside::{StdSink, StdSource};
use tap_top::plain_main;

/// The status of a run that memory ended.
const NO_MEMORY: u8 = 5;

/// The words after the program's name; none where one of them isn't UTF-8, which no command takes.
fn words(rt: &HostRuntime, alloc: Global) -> io::Result<Vec<String>> {
    match env::args(rt) {
        Ok(args) => Ok(args.skip(1).collect(alloc)?),
        Err(error) if error.kind() == ErrorKind::OutOfMemory => Err(error),
        Err(_) => Ok(Vec::new(alloc)),
    }
}

fn main(rt: HostRuntime) -> ExitCode {
    let alloc = rt.alloc();
    let Ok(words) = words(&rt, alloc) else {
        return ExitCode::from(NO_MEMORY);
    };
    let Ok(reader) = BufReader::new(alloc, rt.stdin()) else {
        return ExitCode::from(NO_MEMORY);
    };
    let mut source = StdSource::new(reader);
    let mut sink = StdSink::new(rt.stdout());
    ExitCode::from(plain_main(alloc, &words, &mut source, &mut sink))
}
