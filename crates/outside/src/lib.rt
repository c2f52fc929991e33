// What a program asks of the outside, over std: its words, a file that is read, its standard output, and messages on
// why one of them failed. Octets on standard error, and on standard output where nobody is told why they were not
// written, are the crate io's.
#![tactic(auto)]

ghost use Rattle.std.specs.Prelude.{◌≡◌, ◌≤◌, length, IfOk, IfSome};
ghost use Rattle.io.specs.Counts.{IsPrefixLen};

use std::env::{Env, FillError};
use std::fs::File;
use std::io::{Error, Read};

// The descriptors of the standard streams.
// Kept: numbers, since the crate io takes descriptors as numbers.
pub const STDIN: i32 = 0;

pub const STDOUT: i32 = 1;

pub const STDERR: i32 = 2;

// The system's numbers of errors: a word that is not there, one that is too long, a name that is not UTF-8.
// Kept: numbers, since std's kinds of errors say other words than the system's, which are printed.
const EINVAL: i32 = 22;

const ENAMETOOLONG: i32 = 36;

const EILSEQ: i32 = 84;

// A file that is read, closed where it goes out of use; standard input where there is none.
#[derive(Drop)]
pub struct Source {
    file: Option<File>,
}

// What the system says of an error, without the number that std puts behind it.
fn reason(text: &str) -> &str {
    match text.split_once(" (os error ") {
        Some((front, _)) => front,
        None => text,
    }
}

// Says on standard error what failed, and why.
pub fn fail(rt: &HostRuntime, what: &[u8], e: Error) {
    io::write_all(STDERR, what);
    io::write_all(STDERR, b": ");
    if let Ok(text) = format!(in rt.alloc(); "{e}") {
        io::write_all(STDERR, reason(text.as_str()).as_bytes());
    }
    io::write_all(STDERR, b"\n");
}

// Writes to standard output, or says on standard error why it cannot.
pub fn put(rt: &HostRuntime, octets: &[u8]) -> bool {
    match rt.write_all(octets) {
        Ok(()) => true,
        Err(e) => {
            fail(rt, b"standard output", e);
            false
        }
    }
}

// How many words the command has, the program's own name among them.
pub fn word_count(rt: &HostRuntime) -> usize {
    let mut none = [0u8; 1];
    (0..usize::MAX)
        .position(|i| matches!(rt.arg(i, &mut none), Err(FillError::NotPresent)))
        .unwrap_or(usize::MAX)
}

// Puts a word of the command at the start of the octets, and answers its length: 0 where it is missing or longer.
pub fn word(rt: &HostRuntime, i: usize, octets: &mut [u8]) -> usize
    ensures { IsPrefixLen result octets.new }
{
    rt.arg(i, octets).unwrap_or(0)
}

// The system's error for a word that could not be read.
fn error_of(e: FillError) -> Error {
    match e {
        FillError::NotPresent => Error::from_raw_os_error(EINVAL),
        FillError::TooLong => Error::from_raw_os_error(ENAMETOOLONG),
    }
}

// The same, or says on standard error why what it is the name of cannot be read.
pub fn word_of(rt: &HostRuntime, i: usize, octets: &mut [u8], what: &[u8]) -> Option<usize>
    ensures { IfSome result (λ n. IsPrefixLen n octets.new) }
{
    match rt.arg(i, octets) {
        Ok(n) => Some(n),
        Err(e) => {
            fail(rt, what, error_of(e));
            None
        }
    }
}

// Standard input.
pub fn standard_input() -> Source {
    Source { file: None }
}

// A file opened for reading. std takes a name as text, so one that is not UTF-8 is refused.
fn opened(rt: &HostRuntime, name: &[u8]) -> Result<File, Error> {
    match str::from_utf8(name) {
        Ok(path) => File::open(rt, path),
        Err(_) => Err(Error::from_raw_os_error(EILSEQ)),
    }
}

// Opens a file for reading, or says on standard error why it cannot.
pub fn open(rt: &HostRuntime, name: &[u8]) -> Option<Source> {
    match opened(rt, name) {
        Ok(file) => Some(Source { file: Some(file) }),
        Err(e) => {
            fail(rt, name, e);
            None
        }
    }
}

// One read: how many octets stand at the start of the buffer, 0 at the file's end.
pub fn read(rt: &HostRuntime, source: &Source, buf: &mut [u8]) -> Result<usize, Error>
    ensures { IfOk result (λ n. IsPrefixLen n buf.new) }
{
    match &source.file {
        Some(file) => {
            let mut reader = file;
            reader.read(buf)
        }
        None => {
            let mut reader = rt.stdin();
            reader.read(buf)
        }
    }
}

// The same; 0 also where it fails.
pub fn read_some(rt: &HostRuntime, source: &Source, buf: &mut [u8]) -> usize
    ensures { IsPrefixLen result buf.new }
{
    read(rt, source, buf).unwrap_or(0)
}

// Reads until the buffer is full, the file ends or a read fails: how many octets stand at its start.
pub fn read_full(rt: &HostRuntime, source: &Source, buf: &mut [u8]) -> usize
    ensures { IsPrefixLen result buf.new }
{
    let mut done = 0;
    while done < buf.len() {
        let n = read_some(rt, source, &mut buf[done..]);
        if n == 0 {
            break;
        }
        done += n;
    }
    done
}
