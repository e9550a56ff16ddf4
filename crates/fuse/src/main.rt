// Reads a house file from standard input, fuses it, and writes the fused file to standard output, or the committed wires, one to a line. A
// refusal goes to standard error, and nothing to standard output.
//
//   fuse [1|2] [committed]     slots, 2 if not given
#![tactic(auto)]

ghost use Rattle.std.specs.Prelude.{◌≤◌, length};
ghost use Rattle.fuse.specs.Printed.{Covers};

use asked::Asked;
use report::{Fault, FusedFile};
use std::env::{Env, FillError};
use std::io::Write;
use std::process::ExitCode;
use std::{io, str};
use streams::{cut_by, ended, fail, read_before_error};

mod asked;

// One more than `fuse_file` takes: a longer file is told from one that is as long as it may be.
const MAX_READ: usize = report::MAX_FILE + 1;

// More than the lines of 4,096 wires take.
const MAX_LINES: usize = 86016;

fn print(rt: HostRuntime, text: &[u8]) -> ExitCode {
    match rt.stdout().write_all(text) {
        Err(error) if error.kind() != io::ErrorKind::BrokenPipe => {
            ended(fail(&rt, "fuse: standard output", &error))
        }
        written => ended(written),
    }
}

fn refused(rt: HostRuntime, fault: Fault) -> ExitCode {
    let mut line = [0u8; 64];
    let Ok(length) = report::fault_line(fault, &mut line) else {
        return ExitCode::SUCCESS;
    };
    ended(rt.stderr().write_all(&line[..length]))
}

fn print_committed(rt: HostRuntime, flags: &[u8]) -> ExitCode {
    let mut lines = [0u8; MAX_LINES];
    match text::committed_lines(flags, &mut lines) {
        Ok(length) => print(rt, &lines[..length]),
        Err(refusal) => refused(rt, Fault::Refused(refusal)),
    }
}

fn print_answer(
    rt: HostRuntime,
    answer: Result<FusedFile, Fault>,
    out: &[u8],
    flags: &[u8],
    is_committed: bool,
) -> ExitCode
    requires { Covers answer (length out.now) (length flags.now) }
{
    match answer {
        Ok(fused) if is_committed => print_committed(rt, &flags[..fused.wires]),
        Ok(fused) => print(rt, &out[..fused.length]),
        Err(fault) => refused(rt, fault),
    }
}

fn fuse(rt: HostRuntime, input: &[u8], asked: Asked) -> ExitCode {
    let mut out = [0u8; 262144];
    let mut flags = [0u8; 4096];
    let answer = report::fuse_file(input, asked.slots, &mut out, &mut flags);
    print_answer(rt, answer, &out, &flags, asked.is_committed)
}

fn run(rt: HostRuntime, asked: Asked) -> ExitCode {
    let mut stdin = rt.stdin();
    let mut input = [0u8; MAX_READ];
    let n = read_before_error(&mut stdin, &mut input);
    if n < MAX_READ {
        if let Some(error) = cut_by(&mut stdin) {
            return ended(fail(&rt, "fuse: standard input", &error));
        }
    }
    fuse(rt, &input[..n], asked)
}

// The word `i`, the program's name being the first, put into `buf`; empty where it is missing, longer than `buf` or no text.
fn word<'a>(env: &impl Env, i: usize, buf: &'a mut [u8]) -> &'a str
    ensures { length result.now ≤ length buf.old }
{
    match env.arg(i, buf) {
        Ok(n) => str::from_utf8(&buf[..n]).unwrap_or(""),
        Err(_) => "",
    }
}

// How many words there are, with the program's name, up to 4.
fn word_count(env: &impl Env) -> usize {
    (0..4)
        .take_while(|i| !matches!(env.arg(*i, &mut []), Err(FillError::NotPresent)))
        .count()
}

fn main(rt: HostRuntime) -> ExitCode {
    let mut first = [0u8; 16];
    let mut second = [0u8; 16];
    let asked = asked::of_words(
        word_count(&rt),
        word(&rt, 1, &mut first),
        word(&rt, 2, &mut second),
    );
    match asked {
        Some(asked) => run(rt, asked),
        None => ended(eprintln!(rt; "usage: fuse [1|2] [committed]")),
    }
}
