// What the programs do with their streams: input is read until a buffer is full, and the end of writing makes a status.
#![tactic(auto)]

ghost use Rattle.std.specs.Prelude.{◌≤◌, IfOk, length};

use std::io::{Cursor, Read, Write};
use std::process::ExitCode;
use std::{io, str};

// Reads until `buf` is full or the input ends, and returns how many bytes it put at the start of `buf`.
// Kept: a read brings any part of what is asked for, so the loop does not go over a range.
pub fn read_full<R: Read>(reader: &mut R, buf: &mut [u8]) -> io::Result<usize>
    ensures { IfOk result (λ n. n ≤ length buf.new) }
{
    let mut done = 0;
    while done < buf.len() {
        let n = reader.read(&mut buf[done..])?;
        if n == 0 {
            break;
        }
        done += n;
    }
    Ok(done)
}

// The same, and a read that fails ends it as the end of the input does.
// Kept: as above.
pub fn read_before_error<R: Read>(reader: &mut R, buf: &mut [u8]) -> usize
    ensures { result ≤ length buf.new }
{
    let mut done = 0;
    while done < buf.len() {
        match reader.read(&mut buf[done..]) {
            Ok(n @ 1..) => done += n,
            _ => break,
        }
    }
    done
}

// The error at which reading stopped, if it did: at the end a further read answers 0.
pub fn cut_by<R: Read>(reader: &mut R) -> Option<io::Error> {
    let mut one = [0u8; 1];
    reader.read(&mut one).err()
}

// The status that the writing comes to: 141 where the reader has gone, as where SIGPIPE ends a program; std holds that signal back.
pub fn ended(written: io::Result<()>) -> ExitCode {
    match written {
        Err(error) if error.kind() == io::ErrorKind::BrokenPipe => ExitCode::from(141),
        _ => ExitCode::SUCCESS,
    }
}

// Writes a line to standard error: what failed, a colon and the system's words for the error.
pub fn fail(rt: &impl Eprint, what: &str, error: &io::Error) -> io::Result<()> {
    let mut text = Cursor::new([0u8; 128]);
    let _ = write!(text, "{error}");
    let n = (text.position() as usize).min(128);
    let bytes = text.into_inner();
    let words = str::from_utf8(&bytes[..n]).unwrap_or("");
    let words = words
        .split_once(" (os error ")
        .map_or(words, |(words, _)| words);
    eprintln!(rt; "{what}: {words}")
}

// A line of a label and a number.
pub fn print_number(rt: &impl Print, label: &str, n: u64) -> io::Result<()> {
    println!(rt; "{label}{n}")
}
