// The program: `run` over standard input and standard output.
#![tactic(auto)]

use fm_base::{ReaderSource, WriterSink};
use fm_top::run;
use std::io::ErrorKind;
use std::process::ExitCode;
use std::{env, io};

// Where the system doesn't give the words: out of memory, or any other fault.
const NO_MEMORY: u8 = 7;

const NO_WORDS: u8 = 9;

fn main(rt: HostRuntime) -> ExitCode {
    let words = match env::args(&rt) {
        Ok(words) => words,
        Err(error) if error.kind() == ErrorKind::OutOfMemory => return ExitCode::from(NO_MEMORY),
        Err(_) => return ExitCode::from(NO_WORDS),
    };
    let Ok(all) = words.collect::<Vec<String>>(rt.alloc()) else {
        return ExitCode::from(NO_MEMORY);
    };
    let words = match all.as_slice() {
        [_, words @ ..] => words,
        [] => &[],
    };
    let mut source = ReaderSource::new(rt.reader());
    let mut sink = WriterSink::new(io::writer(&rt));
    let status = run(rt.alloc(), words, &mut source, &mut sink);
    ExitCode::from(status.code())
}
