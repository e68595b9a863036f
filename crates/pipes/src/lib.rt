// Standard input and output, counted. The fields of a Tally are this crate's own, and only `start`, `read` and `write` make one: it counts the calls of the chain that it came from; other calls may have been made.
#![tactic(auto)]

ghost use Rattle.std.specs.Prelude.{◌≡◌, ◌+◌, ◌≤◌, ◌<◌, length};
ghost use Rattle.pipes.specs.Tally.{started, is_open, is_ended, is_unread, counted, stopped, Reads, Writes};

use std::io::{Read, Stderr, Stdin, Stdout, Write};

// Whether input and output go on; or the input has ended, a read failed, a write failed, or more bytes were read than a number counts.
#[derive(Clone, Copy)]
pub enum Flow {
    Open,
    Ended,
    Unread,
    Unwritten,
    TooLong,
}

// The bytes read and written, those that the last read put in place, and how it goes on.
#[derive(Clone, Copy)]
pub struct Tally {
    read: u64,
    written: u64,
    last: usize,
    flow: Flow,
}

// Before anything is read.
pub fn start() -> Tally
    ensures { result ≡ started }
{
    Tally {
        read: 0,
        written: 0,
        last: 0,
        flow: Flow::Open,
    }
}

// How many bytes the last read put in place.
pub fn last(t: Tally) -> usize
    ensures { result ≡ t.last }
{
    t.last
}

// Whether there may be more to read.
pub fn is_open(t: Tally) -> bool
    ensures { result ≡ is_open t.flow }
{
    matches!(t.flow, Flow::Open)
}

// Whether the input is read to its end.
pub fn is_ended(t: Tally) -> bool
    ensures { result ≡ is_ended t.flow }
{
    matches!(t.flow, Flow::Ended)
}

// Whether a read failed.
pub fn is_unread(t: Tally) -> bool
    ensures { result ≡ is_unread t.flow }
{
    matches!(t.flow, Flow::Unread)
}

// Nothing more was moved, and it does not go on.
fn stop(t: Tally, why: Flow) -> Tally
    ensures { result ≡ stopped t why }
{
    Tally {
        last: 0,
        flow: why,
        ..t
    }
}

// So many bytes more were read.
fn add_read(t: Tally, n: usize) -> Tally
    requires { t.read + n ≤ 18446744073709551615 }
    ensures { result ≡ counted t n }
{
    Tally {
        read: t.read + n as u64,
        last: n,
        flow: Flow::Open,
        ..t
    }
}

// One read of standard input into a block behind its first bytes, where there is room.
pub fn read(mut stdin: Stdin, t: Tally, block: &mut [u8], from: usize) -> Tally
    requires { from < length block.old }
    ensures { Reads t block.old from result block.new }
{
    let free = block.len() - from;
    if u64::MAX - t.read <= free as u64 {
        return stop(t, Flow::TooLong);
    }
    match stdin.read(&mut block[from..]) {
        Ok(0) => stop(t, Flow::Ended),
        Ok(n) => add_read(t, n),
        Err(_) => stop(t, Flow::Unread),
    }
}

// Writes bytes to standard output; more of them than a number counts are not written.
pub fn write(mut stdout: Stdout, t: Tally, bytes: &[u8]) -> Tally
    ensures { Writes t (length bytes.now) result }
{
    if u64::MAX - t.written < bytes.len() as u64 {
        return stop(t, Flow::Unwritten);
    }
    if stdout.write_all(bytes).is_err() {
        return stop(t, Flow::Unwritten);
    }
    Tally {
        written: t.written + bytes.len() as u64,
        ..t
    }
}

// Says on standard error that a read failed; where that cannot be written, nothing more is done.
pub fn say_unread(mut stderr: Stderr) {
    let _ = stderr.write_all(b"yindolve: the input cannot be read\n");
}
