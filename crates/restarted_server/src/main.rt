// An update of three files whose server loses its power in the middle of it, and goes on with the journal that it saved.
#![tactic(auto)]

ghost use Rattle.std.specs.Prelude.{length, ◌*◌, ◌≤◌, ◌<◌};

use case_rows::{print, print_number};
use image_file::{close, create_fresh, remove, store};
use program_io::fail;
use std::random::RandomSource;
use std::rt::Files;
use update_steps::{
    CHANGES, ID, START, created, idle, post_changes, read_from, read_on, read_once,
};
use volume::Volume;

// The ring's length, and that of the largest image of it.
const CAPACITY: usize = 4096;

const ROOM: usize = CAPACITY + 32;

// The form of the image: its records in version 2.
const FORM: u32 = 1;

// The changes before the power fails: the second file is written, and not closed.
const BEFORE: usize = 5;

// The id under which the journal is loaded: one that no journal of this volume has had.
const NEXT_ID: u64 = 8;

// The bit of a Reason that says that the file was closed.
const CLOSE: u32 = 0x8000_0000;

// ---- The file.

// Takes a name in /tmp by an empty file, which the image is to replace: each run has a name of its own.
fn take_name(rt: &(impl Files + RandomSource + Eprint), name: &mut [u8]) -> bool {
    match create_fresh(rt, name) {
        Ok(file) => {
            close(file);
            true
        }
        Err(error) => {
            fail(rt, b"create", error);
            false
        }
    }
}

// ---- The server.

// Saves the journal under a name.
fn save(
    rt: &(impl Files + RandomSource + Print + Eprint),
    v: Volume,
    ring: &[u8],
    name: &[u8],
) -> bool {
    let mut image = [0u8; ROOM];
    let answer = image_save::save_journal(v, ring, FORM, &mut image);
    let n = answer.count;
    if n == 0 {
        print(rt, b"refused\n");
        return false;
    }
    if !store(rt, &image[..n], name) {
        return false;
    }
    print(rt, b"saved");
    print_number(rt, n as u64);
    print(rt, b" bytes\n");
    true
}

// Whether an image is refused. The volume record that it is offered stays as it is.
fn is_refused(v: Volume, ring: &mut [u8], image: &[u8]) -> bool {
    let mut w = v;
    image_load::load_journal(&mut w, ring, image, NEXT_ID).is_err()
}

// How many parts of the image are refused: it is cut at each of its bytes.
fn refused_parts(v: Volume, ring: &mut [u8], image: &[u8]) -> usize
    ensures { result ≤ length image.now }
{
    let mut refused = 0;
    for n in 0..image.len() {
        if is_refused(v, ring, &image[..n]) {
            refused += 1;
        }
    }
    refused
}

// Whether the image is refused with some bits of a byte turned over. It is left as it was.
fn is_refused_changed(v: Volume, ring: &mut [u8], image: &mut [u8], at: usize, bits: u8) -> bool
    requires { at < length image.old }
{
    image[at] ^= bits;
    let refused = is_refused(v, ring, image);
    image[at] ^= bits;
    refused
}

// How many images are refused that differ from this one in one bit.
fn refused_changes(v: Volume, ring: &mut [u8], image: &mut [u8]) -> usize
    requires { length image.old ≤ 4128 }
    ensures { result ≤ 8 * length image.old }
{
    let mut refused = 0;
    for i in 0..8 * image.len() {
        if is_refused_changed(v, ring, image, i / 8, 1 << (i % 8)) {
            refused += 1;
        }
    }
    refused
}

// Prints what became of n images.
fn print_offers(rt: &impl Print, label: &[u8], n: usize, refused: usize)
    requires { refused ≤ n }
{
    print(rt, label);
    print_number(rt, refused as u64);
    print(rt, b" refused,");
    print_number(rt, (n - refused) as u64);
    print(rt, b" loaded\n");
}

// Offers images that an accident may leave of this one.
fn offer_damaged(rt: &impl Print, v: Volume, ring: &mut [u8], image: &mut [u8])
    requires { length image.old ≤ 4128 }
{
    let n = image.len();
    print_offers(rt, b"cut at each byte:", n, refused_parts(v, ring, image));
    print_offers(
        rt,
        b"one bit changed:",
        8 * n,
        refused_changes(v, ring, image),
    );
}

// Prints where a journal begins and ends.
fn print_journal(rt: &impl Print, v: Volume) {
    print(rt, b"id");
    print_number(rt, v.id);
    print(rt, b", first");
    print_number(rt, v.first);
    print(rt, b", last");
    print_number(rt, v.last);
    print(rt, b"\n");
}

// ---- The service.

// How many files are closed by a record of the journal.
fn closed(v: Volume, ring: &[u8]) -> usize {
    // room for a close of each file
    let mut output = [0u8; 240];
    let answer = read_from(v, ring, v.id, START, CLOSE, &mut output);
    let count = answer.count;
    reply_walker::walk_reply(&output[..count]).map_or(0, |walk| walk.count)
}

// The update counts as done once each of its files is closed.
fn print_done(rt: &impl Print, v: Volume, ring: &[u8]) {
    let n = closed(v, ring);
    print(rt, b"closed");
    print_number(rt, n as u64);
    if n < 3 {
        print(rt, b" of 3 files: the update is not done\n");
    } else {
        print(rt, b" of 3 files: the update is done\n");
    }
}

// ---- The incident.

// Up to the loss of power. The service's last position, if the journal is saved.
fn before(rt: &(impl Files + RandomSource + Print + Eprint), name: &[u8]) -> Option<u64> {
    let mut ring = [0u8; CAPACITY];
    print(rt, b"-- the update begins\n");
    let mut v = created(CAPACITY);
    post_changes(rt, &mut v, &mut ring, 0, BEFORE);
    print(rt, b"-- the service reads, and is cut off\n");
    let at = read_once(rt, v, &ring, ID, START);
    print(
        rt,
        b"-- the server saves the journal, and loses its power\n",
    );
    if !save(rt, v, &ring, name) {
        return None;
    }
    Some(at)
}

// From the service's return to the end of the update.
fn finish(rt: &impl Print, v: &mut Volume, ring: &mut [u8], start: u64) {
    print(rt, b"-- the service returns with the old id\n");
    read_once(rt, *v, ring, ID, start);
    print(
        rt,
        b"-- it asks for the new id, and goes on from its last position\n",
    );
    let at = read_on(rt, *v, ring, v.id, start);
    print_done(rt, *v, ring);
    print(rt, b"-- the server finishes the update\n");
    post_changes(rt, v, ring, BEFORE, CHANGES);
    print(rt, b"-- the service reads on\n");
    read_on(rt, *v, ring, v.id, at);
    print_done(rt, *v, ring);
}

// From the start of the server on, with a service that stands at `start`. The ring is lost: other bytes stand there.
fn restart(rt: &impl Print, image: &mut [u8], start: u64)
    requires { length image.old ≤ 4128 }
{
    let mut ring = [0xEEu8; CAPACITY];
    let mut v = idle(CAPACITY, 0);
    print(rt, b"-- the server starts, and is offered a damaged file\n");
    offer_damaged(rt, v, &mut ring, image);
    print(rt, b"-- it is offered the whole file\n");
    if image_load::load_journal(&mut v, &mut ring, image, NEXT_ID).is_err() {
        print(rt, b"refused\n");
        return;
    }
    print_journal(rt, v);
    finish(rt, &mut v, &mut ring, start);
}

// Reads the file back, and starts the server with it.
fn after(rt: &(impl Files + Print + Eprint), name: &[u8], start: u64) {
    let mut image = [0u8; ROOM];
    let Some(n) = image_file::fetch(rt, name, &mut image) else {
        return;
    };
    if n != 0 {
        restart(rt, &mut image[..n], start);
    }
}

fn main(rt: HostRuntime) {
    let mut name = *b"/tmp/restarted_server.XXXXXX";
    if !take_name(&rt, &mut name) {
        return;
    }
    if let Some(at) = before(&rt, &name) {
        after(&rt, &name, at);
    }
    remove(&rt, &name);
}
