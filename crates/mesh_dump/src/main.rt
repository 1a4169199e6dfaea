// mesh-dump: the dump of frames in hex, one a line, from standard input to standard output. What is printed for an input is `printed` in
// specs/Output.antt: `run` writes that for all that it reads, from any reader to any writer whose bytes a contract can name. What the
// standard streams give and take no contract can say.
#![tactic(auto)]

ghost use Rattle.std.specs.Prelude.{◌≡◌, ◌+◌, ◌<◌, ◌≤◌, length, take, drop, IfOk, IfErr, OnOk, IfSome};
ghost use Rattle.std.specs.Io.KnownBytes.{Appends, Consumes, IsAtEnd};
ghost use Rattle.wire.specs.Lay.{put};
ghost use Rattle.mesh_dump.specs.declared.Failed.TheVariants.{Input};
ghost use Rattle.mesh_dump.specs.Output.{first_line, line_out, dump_of, left_of, printed, Filling};

use base::Written;
use dump::dump_line;
use std::io::{self, ErrorKind, Read, Write};
use std::process::ExitCode;
use wire::{part, put_all};

// The most bytes of input.
const MOST: usize = 65536;

// What ends a line of the input.
const NEWLINE: u8 = b'\n';

// A line's text, at most 90 bytes, and its newline.
const LINE: usize = 91;

// Where the first line of what is left of the input ends: at its newline, or with the input.
fn line_end(rest: &[u8]) -> usize
    ensures { result ≡ length (first_line rest.now) }
{
    rest.iter()
        .position(|b| *b == NEWLINE)
        .unwrap_or(rest.len())
}

// The text of a line and its newline from a place of out on, and how long they are. The array holds newlines, so one follows the text.
fn put_line(line: &[u8], out: &mut [u8], at: usize) -> usize
    ensures value { result ≡ length (line_out line.now) }
    ensures out_after { out.new ≡ put out.old at (line_out line.now) }
{
    let mut text = [b'\n'; LINE];
    match dump_line(line, &mut text) {
        Written::Bytes(n) => {
            put_all(part(&text, 0, n + 1), out, at);
            n + 1
        }
        Written::Refused(_) => 0,
    }
}

// How far a buffer was filled, and where in the input the next line begins.
#[derive(Clone, Copy)]
struct Filled {
    len: usize,
    next: usize,
}

// Lines from a place of the input on, as long as the next is sure to fit.
fn fill_lines(input: &[u8], from: usize, out: &mut [u8]) -> Filled
    requires from_in_bounds { from < length input.now }
    requires in_bounds { 91 ≤ length out.old }
    ensures { Filling (λ n. dump_of (drop n input.now)) from out.new result.len result.next }
{
    let mut len: usize = 0;
    let mut next = from;
    // a `for` over the lines would count their places by hand too, since the next bufferful begins at one
    while next < input.len() && LINE <= out.len() - len {
        let end = next + line_end(&input[next..]);
        len += put_line(part(input, next, end - next), out, len);
        next = end + 1;
    }
    Filled { len, next }
}

// The next part of what is printed. Where the input is too long, that is said once, for all of it.
fn fill(input: &[u8], from: usize, out: &mut [u8]) -> Filled
    requires from_in_bounds { from < length input.now }
    requires in_bounds { 91 ≤ length out.old }
    ensures { Filling (left_of input.now) from out.new result.len result.next }
{
    if MOST < input.len() {
        put_all(b"input too long\n", out, 0);
        return Filled {
            len: 15,
            next: input.len(),
        };
    }
    fill_lines(input, from, out)
}

// All that is printed, a bufferful at a time.
fn print<W: Write>(input: &[u8], to: &mut W) -> io::Result<()>
    ensures { OnOk result (Appends (W.contents to.old) (W.contents to.new) (printed input.now)) }
{
    let mut out = [0u8; 16384];
    let mut next: usize = 0;
    // each turn goes on where `fill` ended, which no range or iterator of std does
    while next < input.len() {
        let filled = fill(input, next, &mut out);
        to.write_all(part(&out, 0, filled.len))?;
        next = filled.next;
    }
    Ok(())
}

// Reads until the buffer is full or the input ends, and answers how much was read. A pipe or a terminal hands over a piece at a time.
fn read_input<R: Read>(from: &mut R, buf: &mut [u8]) -> io::Result<usize>
    ensures bound { IfOk result (λ n. n ≤ length buf.new) }
    ensures bytes { IfOk result (λ n. Consumes (R.remaining from.old) (R.remaining from.new) (take n buf.new)) }
    ensures end { IfOk result (λ n. n < length buf.new → IsAtEnd (R.remaining from.new)) }
{
    let mut n: usize = 0;
    // no heap for `read_to_end`, and `read_exact` does not say how much there was of an input that ends before
    while n < buf.len() {
        let more = from.read(&mut buf[n..])?;
        if more == 0 {
            return Ok(n);
        }
        n += more;
    }
    Ok(n)
}

// What could not be done. Where nobody reads the output any more there is nobody to tell.
#[derive(Clone, Copy)]
enum Failed {
    Input,
    Output,
    Unread,
}

// One byte more than is dumped tells that the input is too long. Nothing is written where the input cannot be read.
fn run<R: Read, W: Write>(from: &mut R, to: &mut W) -> Result<(), Failed>
    ensures all { OnOk result
        (IfSome (R.remaining from.old) (λ s. Appends (W.contents to.old) (W.contents to.new) (printed s))) }
    ensures none { IfErr result (λ e. e ≡ Input → to.new ≡ to.old) }
{
    let mut input = [0u8; MOST + 1];
    match read_input(from, &mut input) {
        Ok(n) => match print(part(&input, 0, n), to) {
            Ok(()) => Ok(()),
            Err(e) if e.kind() == ErrorKind::BrokenPipe => Err(Failed::Unread),
            Err(_) => Err(Failed::Output),
        },
        Err(_) => Err(Failed::Input),
    }
}

// What could not be read or written is said on standard error, and the status is 1 then. It is 141 where nobody reads the output, as a shell
// has it of a program that is ended by that.
fn main(rt: HostRuntime) -> ExitCode {
    match run(&mut rt.stdin(), &mut rt.stdout()) {
        Ok(()) => ExitCode::SUCCESS,
        Err(Failed::Input) => {
            let _ = eprintln!(rt; "the input cannot be read");
            ExitCode::FAILURE
        }
        Err(Failed::Output) => {
            let _ = eprintln!(rt; "the output cannot be written");
            ExitCode::FAILURE
        }
        Err(Failed::Unread) => ExitCode::from(141),
    }
}
