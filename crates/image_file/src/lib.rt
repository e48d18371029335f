// A stored image as a file. No contract can speak of what the system reads or writes; each function says on standard error what failed.
#![tactic(auto)]

ghost use Rattle.std.specs.Prelude.{IfSome, ◌≡◌, ◌-◌, ◌≤◌, length, take};

use program_io::{fail, open, path};
use std::fs::{File, OpenFile};
use std::io::{Error, ErrorKind, Write};
use std::os::unix::fs::OpenOptionsExt;
use std::random::RandomSource;
use std::rt::Files;
use std::{fs, io};

// The bytes of the longest path, with the one that ends it.
const PATH_MAX: usize = 4096;

// A name with `.XXXXXX` behind it.
const ROOM: usize = PATH_MAX + 7;

// The bytes of a fresh file's name that are drawn, and how often they are drawn anew where the name is taken.
const DRAWN: usize = 6;

const TRIES: usize = 1000;

// What Linux says of an argument that cannot be.
const INVALID: i32 = 22;

// Closes a file. The system is not asked what came of that: what has to be on the disk is flushed before.
pub fn close(_file: impl Drop)
    ensures { Unit {0} }
{}

pub fn remove(rt: &(impl Files + Eprint), name: &[u8])
    ensures { Unit {0} }
{
    if let Err(error) = unlink(rt, name) {
        fail(rt, b"unlink", error);
    }
}

fn unlink(rt: &impl Files, name: &[u8]) -> io::Result<()> {
    fs::remove_file(rt, path(name)?)
}

// ---- A fresh file.

// A digit or a letter for each byte.
fn letter(b: u8) -> u8 {
    let i = b % 62;
    if i < 10 {
        b'0' + i
    } else if i < 36 {
        b'A' + (i - 10)
    } else {
        b'a' + (i - 36)
    }
}

// Fills a part of a name with digits and letters that nobody foresees. The only error is that the system has no random bytes.
fn draw(rt: &impl RandomSource, part: &mut [u8]) -> io::Result<()> {
    rt.fill_bytes(part)?;
    for b in part.iter_mut() {
        *b = letter(*b);
    }
    Ok(())
}

// Draws the last six bytes of a name. A name of fewer is refused, and left as it was.
fn draw_end(rt: &impl RandomSource, name: &mut [u8]) -> io::Result<()>
    ensures { take (length name.old - 6) name.new ≡ take (length name.old - 6) name.old }
{
    if name.len() < DRAWN {
        return Err(Error::from_raw_os_error(INVALID));
    }
    let at = name.len() - DRAWN;
    draw(rt, &mut name[at..])
}

// Makes a file under this name, which is free, for its owner alone.
fn create_new<R: Files>(rt: &R, name: &[u8]) -> io::Result<R::File> {
    File::options()
        .read(true)
        .write(true)
        .create_new(true)
        .mode(0o600)
        .open(rt, path(name)?)
}

// Makes a file under a name that is free, for its owner alone: the last six bytes of `name` are drawn for it, and the others stay. After an
// error no file is made.
pub fn create_fresh<R: Files + RandomSource>(rt: &R, name: &mut [u8]) -> io::Result<R::File>
    ensures { take (length name.old - 6) name.new ≡ take (length name.old - 6) name.old }
{
    for _ in 0..TRIES {
        draw_end(rt, name)?;
        match create_new(rt, name) {
            Err(error) if error.kind() == ErrorKind::AlreadyExists => {}
            made => return made,
        }
    }
    Err(Error::from(ErrorKind::AlreadyExists))
}

// ---- An image.

// Writes the image, and waits until it is on the disk.
fn write_flushed<R: Files + Eprint>(rt: &R, file: &mut R::File, image: &[u8]) -> bool {
    if let Err(error) = file.write_all(image) {
        fail(rt, b"write", error);
        return false;
    }
    if let Err(error) = file.sync_all() {
        fail(rt, b"fsync", error);
        return false;
    }
    true
}

fn rename(rt: &impl Files, fresh: &[u8], to: &[u8]) -> io::Result<()> {
    fs::rename(rt, path(fresh)?, path(to)?)
}

// Gives the file `fresh` the name `to`.
fn replace(rt: &(impl Files + Eprint), fresh: &[u8], to: &[u8]) -> bool {
    if let Err(error) = rename(rt, fresh, to) {
        fail(rt, b"rename", error);
        return false;
    }
    true
}

// Closes the fresh file, and gives it the name `to` if it is whole.
fn settle<R: Files + Eprint>(rt: &R, file: R::File, whole: bool, fresh: &[u8], to: &[u8]) -> bool {
    close(file);
    whole && replace(rt, fresh, to)
}

// Makes a file under the name `fresh`, whose end is replaced, and stores the image in it under `name`.
fn store_fresh<R: Files + RandomSource + Eprint>(
    rt: &R,
    image: &[u8],
    name: &[u8],
    fresh: &mut [u8],
) -> bool {
    let mut file = match create_fresh(rt, fresh) {
        Ok(file) => file,
        Err(error) => {
            fail(rt, b"create", error);
            return false;
        }
    };
    let whole = write_flushed(rt, &mut file, image);
    if !settle(rt, file, whole, fresh, name) {
        remove(rt, fresh);
        return false;
    }
    true
}

// As much of a name as a path may have and one byte more: with that the system still finds a longer name too long.
fn name_length(name: &[u8]) -> usize
    ensures { (result ≤ length name.now) × (result ≤ 4096) }
{
    let n = name.len();
    if PATH_MAX < n {
        return PATH_MAX;
    }
    n
}

// Stores the image under a name. A fresh file beside it gets the name only when it is whole and on the disk: a loss of power leaves
// what stood there, or the image. The folder is not flushed: it may still be what stood there.
pub fn store(rt: &(impl Files + RandomSource + Eprint), image: &[u8], name: &[u8]) -> bool
    ensures { Unit {0} }
{
    let mut fresh = [0u8; ROOM];
    let n = name_length(name);
    le::copy(&mut fresh, &name[..n]);
    le::copy(&mut fresh[n..], b".XXXXXX");
    store_fresh(rt, image, name, &mut fresh[..n + 7])
}

// Reads the file into `image`, until it ends or `image` is full, and says how many bytes came; none where that failed.
pub fn fetch(rt: &(impl Files + Eprint), name: &[u8], image: &mut [u8]) -> Option<usize>
    ensures { IfSome result (λ n. n ≤ length image.old) }
{
    let mut file = match open(rt, name) {
        Ok(file) => file,
        Err(error) => {
            fail(rt, name, error);
            return None;
        }
    };
    let read = list_input::read_all(&mut file, image);
    close(file);
    match read {
        Ok(n) => Some(n),
        Err(error) => {
            fail(rt, name, error);
            None
        }
    }
}
