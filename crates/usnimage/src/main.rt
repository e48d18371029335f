// Lists a stored image of a journal, or moves it from one form to the other. No contract can speak of what the system reads or writes: all
// that is decided about an image's bytes is decided by `list_image` and `move_image`, but that a file longer than any image is none.
#![tactic(auto)]

ghost use Rattle.std.specs.Prelude.{◌≤◌, length, IfSome};

use program_io::{argument, argument_count, complain, fail};
use status::{Answer, Status};
use std::env::Env;
use std::random::RandomSource;
use std::rt::Files;

// The longest image. A file is read into a byte more: one that fills that is longer, whatever follows.
const LONGEST: usize = 65536 + 32;

// The room that the listing of the longest image wants.
const TEXT: usize = 128 + 2 * LONGEST;

// ---- What it says.

fn say(rt: &(impl Print + Eprint), text: &[u8]) {
    if let Err(error) = rt.write_all(text) {
        fail(rt, b"write", error);
    }
}

// Says how many bytes were read, and how many were written.
fn say_moved(rt: &(impl Print + Eprint), old: usize, new: usize) {
    if let Err(error) = print!(rt; "moved {old} bytes to {new}\n") {
        fail(rt, b"write", error);
    }
}

// Says that an image is not of the form that it is to be moved from.
fn say_other(rt: &(impl Print + Eprint), form: u32) {
    if form == 1 {
        say(rt, b"not of form 1\n");
    } else {
        say(rt, b"not of form 2\n");
    }
}

// Says why an image is not moved.
fn say_refusal(rt: &(impl Print + Eprint), status: Status, from: u32) {
    match status {
        Status::UnknownRevision => say_other(rt, from),
        Status::FileCorruptError => say(rt, b"no image\n"),
        Status::NotSupported => say(rt, b"an id does not fit form 1\n"),
        _ => say(rt, b"refused\n"),
    }
}

fn say_usage(rt: &impl Eprint) {
    complain(rt, "usage: usnimage FILE [up NEW | down NEW]\n");
}

// ---- The image.

// Reads a file into `image`, and says so if it is longer than any image.
fn fetch(rt: &(impl Files + Print + Eprint), name: &[u8], image: &mut [u8]) -> Option<usize>
    ensures { IfSome result (λ n. n ≤ length image.old) }
{
    let n = image_file::fetch(rt, name, image)?;
    if LONGEST < n {
        say(rt, b"no image\n");
        return None;
    }
    Some(n)
}

fn list(rt: &(impl Files + Print + Eprint), name: &[u8]) {
    let mut image = [0u8; LONGEST + 1];
    let Some(n) = fetch(rt, name, &mut image) else {
        return;
    };
    let mut text = [0u8; TEXT];
    // there is room for every listing
    let count = image_listing::list_image(&mut text, &image[..n]).unwrap_or(0);
    say(rt, &text[..count]);
}

// Moves an image from a form to the other one.
fn moved(image: &[u8], from: u32, output: &mut [u8]) -> Answer
    ensures { result.count ≤ length output.old }
{
    image_move::move_image(image, from, output)
}

// Stores what became of an image of so many bytes. If that fails, the file under this name stays as it was.
fn keep(rt: &(impl Files + RandomSource + Print + Eprint), image: &[u8], name: &[u8], old: usize) {
    if image_file::store(rt, image, name) {
        say_moved(rt, old, image.len());
    }
}

// Moves the image in the file `name` from a form to the other one, in the file `new`.
fn move_file(
    rt: &(impl Files + RandomSource + Print + Eprint),
    name: &[u8],
    from: u32,
    new: &[u8],
) {
    let mut image = [0u8; LONGEST + 1];
    let Some(n) = fetch(rt, name, &mut image) else {
        return;
    };
    let mut output = [0u8; LONGEST];
    let answer = moved(&image[..n], from, &mut output);
    match answer.status {
        Status::Success => keep(rt, &output[..answer.count], new, n),
        status => say_refusal(rt, status, from),
    }
}

// ---- The arguments.

// The form that a word moves an image from.
fn form_from(word: &[u8]) -> Option<u32> {
    match word {
        b"up" => Some(1),
        b"down" => Some(2),
        _ => None,
    }
}

// The form that argument 2 moves an image from. A word that does not fit is read as an empty one.
fn form_asked(rt: &impl Env) -> Option<u32> {
    let mut word = [0u8; 8];
    let n = argument(rt, 2, &mut word);
    form_from(&word[..n])
}

// A name that is too long for any file is read as an empty one, which names none.
fn list_asked(rt: &(impl Env + Files + Print + Eprint)) {
    let mut name = [0u8; 4096];
    let n = argument(rt, 1, &mut name);
    if n == 0 {
        say_usage(rt);
        return;
    }
    list(rt, &name[..n]);
}

fn move_asked(rt: &(impl Env + Files + RandomSource + Print + Eprint)) {
    let Some(form) = form_asked(rt) else {
        say_usage(rt);
        return;
    };
    let mut name = [0u8; 4096];
    let n = argument(rt, 1, &mut name);
    let mut new = [0u8; 4096];
    let m = argument(rt, 3, &mut new);
    if n == 0 || m == 0 {
        say_usage(rt);
        return;
    }
    move_file(rt, &name[..n], form, &new[..m]);
}

fn main(rt: HostRuntime) {
    let count = argument_count(&rt);
    match count {
        2 => list_asked(&rt),
        4 => move_asked(&rt),
        _ => say_usage(&rt),
    }
}
