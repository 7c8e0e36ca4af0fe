// A schedule's bytes from standard input, the report or the refusal to standard output; a failure in one line on standard error.
#![tactic(auto)]

ghost use Rattle.std.specs.Prelude.{◌≡◌, ◌<◌, length, take, OnOk, IfSome, Err};
ghost use Rattle.std.specs.Io.KnownBytes.{Appends};
ghost use Rattle.console.specs.declared.Failure as Failure;
ghost use Rattle.program_output.specs.ProgramOutput.{output_of};
ghost use Rattle.console.specs.Input.{ReadInto, HasTaken};

use program_output::print_schedule;
use std::io::{Read, Write};
use std::{fmt, io};

// What kept the output from being printed whole.
#[derive(Clone, Copy)]
enum Failure {
    // a read failed, and nothing was written
    Unread,
    // a write failed, and some of the output may have been written
    Unwritten,
}

impl fmt::Display for Failure {
    fn fmt<W: fmt::Write>(&self, f: &mut fmt::Formatter<W>) -> fmt::Result {
        match self {
            Failure::Unread => f.write_str("koxaltes: input could not be read"),
            Failure::Unwritten => f.write_str("koxaltes: output could not be written"),
        }
    }
}

// Reads until the input ends or the buffer is full: how many bytes stand at the buffer's start. The buffer has a byte more than a schedule
// may have: question 1 sees a longer one. A read that a signal interrupts has failed, too.
// A `while`: how many bytes a read brings is known only after it.
fn read_input<R: Read>(input: &mut R, buf: &mut [u8]) -> io::Result<usize>
    requires { 60000 < length buf.old }
    ensures within { ReadInto result buf.new }
    ensures bytes { HasTaken (R.remaining input.old) (R.remaining input.new) result buf.new }
{
    let mut n: usize = 0;
    while n < buf.len() {
        match input.read(&mut buf[n..])? {
            0 => break,
            more => n += more,
        }
    }
    Ok(n)
}

// Writes the report, or the refusal; 60,000 bytes are room for either.
fn print_output<W: Write>(src: &[u8], output: &mut W) -> io::Result<()>
    ensures { OnOk result (Appends (W.contents output.old) (W.contents output.new) (output_of src.now)) }
{
    let mut out = [0u8; 60000];
    let n = print_schedule(src, &mut out);
    output.write_all(&out[..n])
}

// Prints the report, or the refusal, of all that the input has; of an input past 60,000 bytes, of its first 60,001.
fn print_input<R: Read, W: Write>(input: &mut R, output: &mut W) -> Result<(), Failure>
    ensures printed { OnOk result (IfSome (R.remaining input.old) (λ bytes.
        Appends (W.contents output.old) (W.contents output.new) (output_of (take 60001 bytes)))) }
    ensures silent { result ≡ Err Failure.Unread → output.new ≡ output.old }
{
    let mut src = [0u8; 60001];
    let Ok(n) = read_input(input, &mut src) else {
        return Err(Failure::Unread);
    };
    match print_output(&src[..n], output) {
        Ok(()) => Ok(()),
        Err(_) => Err(Failure::Unwritten),
    }
}

pub fn run(rt: &HostRuntime) {
    if let Err(failure) = print_input(&mut rt.stdin(), &mut rt.stdout()) {
        let _ = eprintln!(rt; "{failure}");
    }
}
