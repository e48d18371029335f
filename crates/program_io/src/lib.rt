// What the programs share: their arguments, files by name, and what they say on standard error. No contract can speak of what the system
// gives or takes.
#![tactic(auto)]

ghost use Rattle.std.specs.Prelude.{◌≡◌, ◌≤◌, length, IfOk, IfErr, IsUtf8};

use std::env::{Env, FillError};
use std::fmt::{Display, Formatter, Write};
use std::fs::File;
use std::io::Error;
use std::rt::Files;
use std::{fmt, io, str};

// ---- The arguments.

// How many arguments the program was started with, its own name among them.
pub fn argument_count(rt: &impl Env) -> usize
    ensures { Unit {0} }
{
    for i in 0..usize::MAX {
        if !has_argument(rt, i) {
            return i;
        }
    }
    usize::MAX
}

fn has_argument(rt: &impl Env, i: usize) -> bool {
    let mut room = [0u8; 1];
    !matches!(rt.arg(i, &mut room), Err(FillError::NotPresent))
}

// Puts argument i at the start of `buf`, and says how many bytes it has: 0 where there is none, or where it does not fit. An empty argument
// and none are one to every program, so an Option would only be taken apart again.
pub fn argument(rt: &impl Env, i: usize, buf: &mut [u8]) -> usize
    ensures { result ≤ length buf.old }
{
    match rt.arg(i, buf) {
        Ok(n) => n,
        Err(_) => 0,
    }
}

// ---- Files.

// What Linux says of a name that is no text.
const NO_TEXT: i32 = 84;

// The name of a file as std takes it: as text in UTF-8. The only error is that it is none.
pub fn path(name: &[u8]) -> io::Result<&str>
    ensures ok { IfOk result (λ s. s.now ≡ name.now) }
    ensures err { IfErr result (λ e. ¬ (IsUtf8 name.now)) }
{
    match str::from_utf8(name) {
        Ok(text) => Ok(text),
        Err(_) => Err(Error::from_raw_os_error(NO_TEXT)),
    }
}

// Opens the file of that name for reading. A name that is no text is refused.
pub fn open<R: Files>(rt: &R, name: &[u8]) -> io::Result<R::File>
    ensures { IfOk result (λ f. IsUtf8 name.now) }
{
    File::open(rt, path(name)?)
}

// ---- Standard error.

// Bytes as text: what is not UTF-8 among them is shown as U+FFFD.
#[derive(Drop)]
pub struct Words<'a>(pub &'a [u8]);

impl Display for Words<'_> {
    fn fmt<W: fmt::Write>(&self, f: &mut Formatter<W>) -> fmt::Result {
        for chunk in self.0.utf8_chunks() {
            f.write_str(chunk.valid())?;
            if !chunk.invalid().is_empty() {
                f.write_char('\u{FFFD}')?;
            }
        }
        Ok(())
    }
}

// Says something on standard error. Where that fails there is nowhere left to say so.
pub fn complain(rt: &impl Eprint, text: impl Display + Drop)
    ensures { Unit {0} }
{
    let _ = rt.eprint(text);
}

// Room for the text of an error.
const ROOM: usize = 320;

#[derive(Drop)]
struct Text {
    bytes: [u8; ROOM],
    length: usize,
    ghost fits: { length ≤ 320 },
}

impl Text {
    fn as_str(&self) -> &str {
        let n = self.length;
        match str::from_utf8(&self.bytes[..n]) {
            Ok(text) => text,
            Err(_) => "",
        }
    }
}

impl fmt::Write for Text {
    fn write_str(&mut self, s: &str) -> fmt::Result {
        for b in s.as_bytes() {
            if ROOM <= self.length {
                return Err(fmt::Error);
            }
            self.bytes[self.length] = *b;
            self.length += 1;
        }
        Ok(())
    }
}

// An error in the words of the system alone: std puts its number behind them.
#[derive(Drop)]
struct Cause(Error);

impl Display for Cause {
    fn fmt<W: fmt::Write>(&self, f: &mut Formatter<W>) -> fmt::Result {
        let mut text = Text {
            bytes: [0u8; ROOM],
            length: 0,
        };
        let error = self.0;
        write!(text, "{error}")?;
        let all = text.as_str();
        match all.rsplit_once(" (os error ") {
            Some((words, _)) => f.write_str(words),
            None => f.write_str(all),
        }
    }
}

// Says what failed, and how, on a line of its own.
pub fn fail(rt: &impl Eprint, what: &[u8], error: Error)
    ensures { Unit {0} }
{
    complain(rt, format_args!("{}: {}\n", Words(what), Cause(error)));
}
