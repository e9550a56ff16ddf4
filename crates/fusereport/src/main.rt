// Reads a house file from standard input, and prints what fusing it comes to on one line: `refused N`, or `ok` and nine counts.
#![tactic(auto)]

use std::io;
use std::io::Write;
use std::process::ExitCode;
use streams::{cut_by, ended, fail, read_before_error};

// One more than `report` takes: a longer file is told from one that is as long as it may be.
const MAX_READ: usize = report::MAX_INPUT + 1;

fn print(rt: &(impl Print + Eprint), line: &[u8]) -> ExitCode {
    match rt.write_all(line) {
        Err(error) if error.kind() != io::ErrorKind::BrokenPipe => {
            ended(fail(rt, "fusereport: standard output", &error))
        }
        written => ended(written),
    }
}

fn main(rt: HostRuntime) -> ExitCode {
    let mut stdin = rt.stdin();
    let mut input = [0u8; MAX_READ];
    let n = read_before_error(&mut stdin, &mut input);
    if n < MAX_READ {
        if let Some(error) = cut_by(&mut stdin) {
            match fail(&rt, "fusereport: standard input", &error) {
                Err(gone) if gone.kind() == io::ErrorKind::BrokenPipe => return ended(Err(gone)),
                _ => {}
            }
        }
    }
    let mut line = [0u8; 512];
    match report::report(&input[..n], &mut line) {
        Ok(length) => print(&rt, &line[..length]),
        Err(_) => ExitCode::SUCCESS,
    }
}
