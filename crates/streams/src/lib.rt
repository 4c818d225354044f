// Standard input and standard output for the programs: what a call answered is told apart, so that no error is taken for an end, and no
// line is told of an input that was not read to its end.
#![tactic(auto)]

ghost use Rattle.std.specs.Prelude.{◌≡◌, ◌<◌, length};
ghost use Rattle.std.specs.IoError.{raw_os_error};
ghost use Rattle.io.specs.Counts.{IsPrefixLen};
ghost use Rattle.streams.specs.Streams.{Inside, Within, Ended, interrupted, stepped, gone, counted};

use std::io::{Cursor, Error, ErrorKind, Print, Read, Result, Stderr, Stdout, Write};
use std::ops::ControlFlow;

// The number that Linux gives a call which a signal interrupted.
const EINTR: i32 = 4;

// What came of all the bytes that were to be read or written, where no call failed. An Option would not say which of the two is the whole.
#[derive(Clone, Copy)]
pub enum Moved {
    // All of them.
    All,
    // So many, and there is no more: of a read, the input ended there.
    Part(usize),
}

// Where a program writes what it tells, and where it says under its name why it could not.
#[derive(Clone, Copy)]
pub struct Outputs {
    pub out: Stdout,
    pub error: Stderr,
    pub program: &'static str,
}

// Whether a signal interrupted the call.
fn is_interrupted(why: Error) -> bool
    ensures { result ≡ interrupted (raw_os_error why) }
{
    why.raw_os_error().is_some_and(|number| number == EINTR)
}

// What a call answered that was lent some bytes: how many of them it moved, or nothing where a signal came before the first.
fn did(got: Result<usize>, lent: &[u8]) -> Result<Option<usize>>
    ensures { result ≡ stepped got (length lent.now) }
{
    match got {
        Ok(count) => Ok(Some(count.min(lent.len()))),
        Err(why) if is_interrupted(why) => Ok(None),
        Err(why) => Err(why),
    }
}

// After one more call, with so many bytes moved before it: so many then, and another call is due, or what came of all.
fn after(step: Result<Option<usize>>, done: usize, all: usize) -> ControlFlow<Result<Moved>, usize>
    requires { done < all }
    ensures value { result ≡ gone step done all }
    ensures inside { Inside result all }
{
    match step {
        Ok(Some(0)) => ControlFlow::Break(Ok(Moved::Part(done))),
        Ok(Some(more)) if all - done <= more => ControlFlow::Break(Ok(Moved::All)),
        Ok(Some(more)) => ControlFlow::Continue(done + more),
        Ok(None) => ControlFlow::Continue(done),
        Err(why) => ControlFlow::Break(Err(why)),
    }
}

// One read of an input into a space, from a place on. Nothing is asked for no bytes, which would be answered as an end is.
fn read_from<R: Read>(input: &mut R, space: &mut [u8], from: usize) -> Result<Option<usize>>
    requires { from < length space.old }
{
    let part = &mut space[from..];
    let got = input.read(part);
    did(got, part)
}

// One write of some bytes to an output, from a place on.
fn write_from<W: Write>(output: &mut W, bytes: &[u8], from: usize) -> Result<Option<usize>>
    requires { from < length bytes.now }
{
    let part = &bytes[from..];
    let got = output.write(part);
    did(got, part)
}

// Reads an input until the space is full, the input ends or a read fails. Signals may interrupt call after call, so nothing but the count
// of calls shows that it ends; no run makes as many as are counted.
pub fn read<R: Read>(input: &mut R, space: &mut [u8]) -> Result<Moved>
    ensures { Within result (length space.new) }
{
    let mut done = 0;
    if space.is_empty() {
        return Ok(Moved::All);
    }
    for _ in 0..u64::MAX {
        match after(read_from(input, space, done), done, space.len()) {
            ControlFlow::Continue(more) => done = more,
            ControlFlow::Break(moved) => return moved,
        }
    }
    Err(Error::from(ErrorKind::TimedOut))
}

// Writes all of some bytes to an output, unless a write fails.
pub fn write<W: Write>(output: &mut W, bytes: &[u8]) -> Result<Moved> {
    let mut done = 0;
    if bytes.is_empty() {
        return Ok(Moved::All);
    }
    for _ in 0..u64::MAX {
        match after(write_from(output, bytes, done), done, bytes.len()) {
            ControlFlow::Continue(more) => done = more,
            ControlFlow::Break(moved) => return moved,
        }
    }
    Err(Error::from(ErrorKind::TimedOut))
}

// How many bytes of a space hold what was read. What was moved before a call that failed is of no use.
pub fn count(read: Result<Moved>, space: &[u8]) -> usize
    ensures prefix_len { IsPrefixLen result space.now }
    ensures value { result ≡ counted read (length space.now) }
{
    match read {
        Ok(Moved::All) => space.len(),
        Ok(Moved::Part(n)) => n.min(space.len()),
        Err(_) => 0,
    }
}

// Where the system's own words for an error end: before its number, which stands last and in parentheses.
fn words_of(text: &[u8]) -> usize
    ensures { IsPrefixLen result text.now }
{
    let number = text.iter().rposition(|byte| *byte == b'(');
    number.map_or(text.len(), |at| at.saturating_sub(1))
}

// A line on standard error: whose stream failed, which it is, and the words. Where that fails too, there is nobody to tell.
fn complain(error: Stderr, whose: &[u8], which: &[u8], words: &[u8]) {
    let _ = error.write_all(whose);
    let _ = error.write_all(which);
    let _ = error.write_all(words);
    let _ = error.write_all(b"\n");
}

// The same with the system's reason.
fn complain_of(error: Stderr, whose: &[u8], which: &[u8], why: Error) {
    let mut text = [0u8; 256];
    let mut at = Cursor::new(&mut text[..]);
    let _ = write!(at, "{why}");
    let size = (at.position() as usize).min(256);
    complain(error, whose, which, &text[..words_of(&text[..size])]);
}

// Some bytes to standard output, which is called by the two names where that fails.
fn said(mut to: Outputs, whose: &[u8], which: &[u8], bytes: &[u8]) -> Result<()> {
    match write(&mut to.out, bytes) {
        Ok(Moved::All) => Ok(()),
        Ok(Moved::Part(_)) => {
            complain(to.error, whose, which, b"takes no more");
            Err(Error::from(ErrorKind::WriteZero))
        }
        Err(why) => {
            complain_of(to.error, whose, which, why);
            Err(why)
        }
    }
}

// Why an input was not read to its end, which is called by the two names.
fn not_read(error: Stderr, whose: &[u8], which: &[u8], read: Result<Moved>) {
    match read {
        Ok(Moved::All) => complain(error, whose, which, b"does not end"),
        Ok(Moved::Part(_)) => {}
        Err(why) => complain_of(error, whose, which, why),
    }
}

// What `Outputs::say` does, under any name of the output in place of the program's.
pub fn say(to: Outputs, output: &[u8], bytes: &[u8]) -> Result<()> {
    said(to, output, b": ", bytes)
}

// What `Outputs::unread` does, under any name of the input.
pub fn unread(to: Outputs, input: &[u8], read: Result<Moved>) {
    not_read(to.error, input, b": ", read);
}

// What `Outputs::tell` does, under any name of the output.
pub fn tell(to: Outputs, output: &[u8], read: Result<Moved>, bytes: &[u8]) -> Result<()>
    requires { Ended read }
{
    say(to, output, bytes)
}

impl Outputs {
    // Writes some bytes to standard output. Where that fails, a line on standard error names the output and has the system's reason; the
    // caller then writes nothing more, so that no output has a gap and the reason is said once.
    pub fn say(self, bytes: &[u8]) -> Result<()> {
        said(self, self.program.as_bytes(), b": standard output: ", bytes)
    }

    // Says on standard error what is wrong with the input.
    pub fn unfit(self, words: &[u8]) {
        complain(
            self.error,
            self.program.as_bytes(),
            b": standard input: ",
            words,
        );
    }

    // Says why the input was not read to its end.
    pub fn unread(self, read: Result<Moved>) {
        not_read(
            self.error,
            self.program.as_bytes(),
            b": standard input: ",
            read,
        );
    }

    // Writes what an input tells. An input that was not read to its end tells nothing.
    pub fn tell(self, read: Result<Moved>, bytes: &[u8]) -> Result<()>
        requires { Ended read }
    {
        self.say(bytes)
    }
}

// So that `write!` says text and numbers.
impl Write for Outputs {
    fn write(&mut self, bytes: &[u8]) -> Result<usize> {
        self.say(bytes)?;
        Ok(bytes.len())
    }

    fn flush(&mut self) -> Result<()> {
        Ok(())
    }
}
