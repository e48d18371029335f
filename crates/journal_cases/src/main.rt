// Runs lists of calls on a journal and prints what each call answers and leaves, for the gate. Its arguments name files of
// rows of nine numbers; the files, and the lines that must come of them, are made by tools/make_journal.py, which shares
// nothing with the crates.
#![tactic(auto)]

ghost use Rattle.std.specs.Prelude.{length, ◌≤◌};

use case_rows::{ROW, digest, number, print, print_number, print_status, size, word};
use file_ids::id_of;
use journal_post::Change;
use program_io::argument_count;
use status::{Answer, Status};
use std::env::Env;
use std::rt::Files;
use volume::Volume;

// Prints the status of a call that gave r, and the volume record that it leaves.
fn tell(rt: &impl Print, label: &[u8], r: Result<(), Status>, v: &Volume) {
    print(rt, label);
    print_status(rt, r.err().unwrap_or(Status::Success));
    print_number(rt, v.state as u64);
    print_number(rt, v.id);
    print_number(rt, v.first);
    print_number(rt, v.last);
    print(rt, b"\n");
}

// Fills a name with the letters from the one numbered `first` on, `a` after `z`.
fn letters(name: &mut [u8], first: usize)
    requires { first ≤ 25 }
{
    for (i, letter) in name.iter_mut().enumerate() {
        *letter = (97 + (first + i % 26) % 26) as u8;
    }
}

fn change(row: &[u8]) -> Change {
    Change {
        file: id_of(0x0102_0304_0506_0708),
        parent: id_of(0xF0E0_D0C0_B0A0_9080),
        time: number(row, 5),
        reason: word(row, 1),
        source: 2,
        security: 3,
        attributes: word(row, 2),
    }
}

// Prints the file's USN and a digest of the ring.
fn print_file(rt: &impl Print, usn: u64, ring: &[u8]) {
    print(rt, b"file");
    print_number(rt, usn);
    print_number(rt, digest(ring));
}

// Posts a change: reason, attributes, the name's length and its first letter.
fn post(rt: &impl Print, v: &mut Volume, ring: &mut [u8], row: &[u8]) {
    let mut name = [0u8; 520];
    let first = (number(row, 4) % 26) as usize;
    letters(&mut name, first);
    let n = size(row, 3, 520);
    let mut usn = 5;
    let c = change(row);
    let posted = journal_post::post(v, ring, c, &name[..n], &mut usn);
    print_file(rt, usn, ring);
    tell(rt, b" post", posted, v);
}

// Lays out a read's input: start, mask, only-on-close, id, min, max.
fn put_input(input: &mut [u8], row: &[u8])
    requires { 44 ≤ length input.old }
{
    le::put(input, 8, number(row, 1));
    le::put_two(&mut input[8..], 4, number(row, 2), number(row, 3));
    put_tail(&mut input[32..], row);
}

fn put_tail(input: &mut [u8], row: &[u8])
    requires { 12 ≤ length input.old }
{
    le::put(input, 8, number(row, 4));
    le::put_two(&mut input[8..], 2, number(row, 5), number(row, 6));
}

// Prints what a read answers, the output's first number and a digest of the whole output.
fn print_read(rt: &impl Print, answer: Answer, output: &[u8])
    requires { 8 ≤ length output.now }
{
    print(rt, b"read");
    print_status(rt, answer.status);
    print_number(rt, answer.count as u64);
    print_number(rt, le::get(output, 0, 8));
    print_number(rt, digest(output));
    print(rt, b"\n");
}

// Reads into an output of bytes that are set already, so that the digest tells which of them the read wrote.
fn read_into(rt: &impl Print, v: Volume, ring: &[u8], row: &[u8], output: &mut [u8])
    requires { 8 ≤ length output.old }
{
    let mut input = [0u8; 64];
    put_input(&mut input, row);
    let wide = size(row, 7, 64);
    let room = size(row, 8, output.len());
    let answer = journal_read::read_journal(v, ring, &input[..wide], &mut output[..room]);
    print_read(rt, answer, output);
}

// Reads: start, mask, only-on-close, id, min, max, the input's length and the output's.
fn read(rt: &impl Print, v: Volume, ring: &[u8], row: &[u8]) {
    let mut output = [0xEEu8; 4096];
    read_into(rt, v, ring, row, &mut output);
}

// What the server or an accident may change in the volume record.
#[derive(Clone, Copy, Debug, PartialEq, Eq)]
enum Field {
    Journal,
    State,
    First,
    Last,
    Capacity,
}

impl From<u64> for Field {
    fn from(n: u64) -> Field {
        match n {
            0 => Field::Journal,
            1 => Field::State,
            2 => Field::First,
            3 => Field::Last,
            _ => Field::Capacity,
        }
    }
}

fn set(v: &mut Volume, field: Field, value: u64) {
    match field {
        Field::Journal => v.journal = (value % 0x1_0000_0000) as u32,
        Field::State => v.state = (value % 0x1_0000_0000) as u32,
        Field::First => v.first = value,
        Field::Last => v.last = value,
        Field::Capacity => v.capacity = value,
    }
}

// Turns over the bits of one byte.
fn flip(ring: &mut [u8], at: usize) {
    if at < ring.len() {
        ring[at] = 255 - ring[at];
    }
}

fn create(rt: &impl Print, v: &mut Volume, id: u64) {
    let created = v.create(id);
    tell(rt, b"create", created, v);
}

fn delete(rt: &impl Print, v: &mut Volume, id: u64) {
    let deleted = v.delete(id);
    tell(rt, b"delete", deleted, v);
}

fn finish(rt: &impl Print, v: &mut Volume) {
    let finished = v.finish();
    tell(rt, b"finish", finished, v);
}

// What a row calls for.
#[derive(Clone, Copy, Debug, PartialEq, Eq)]
enum Kind {
    Create,
    Delete,
    Finish,
    Post,
    Read,
    Set,
    Flip,
}

impl From<u64> for Kind {
    fn from(n: u64) -> Kind {
        match n {
            0 => Kind::Create,
            1 => Kind::Delete,
            2 => Kind::Finish,
            3 => Kind::Post,
            4 => Kind::Read,
            5 => Kind::Set,
            _ => Kind::Flip,
        }
    }
}

fn call(rt: &impl Print, v: &mut Volume, ring: &mut [u8], row: &[u8]) {
    match Kind::from(number(row, 0)) {
        Kind::Create => create(rt, v, number(row, 1)),
        Kind::Delete => delete(rt, v, number(row, 1)),
        Kind::Finish => finish(rt, v),
        Kind::Post => post(rt, v, ring, row),
        Kind::Read => read(rt, *v, ring, row),
        Kind::Set => set(v, Field::from(number(row, 1)), number(row, 2)),
        Kind::Flip => flip(ring, size(row, 1, 65536)),
    }
}

// Runs all rows on a ring, from a volume that supports its journal and is idle at LastUsn `last`.
fn run(rt: &impl Print, rows: &[u8], ring: &mut [u8], last: u64) {
    let mut v = Volume {
        usn: 0,
        regions: 0,
        reparse: 0,
        points: 0,
        journal: 1,
        state: 0,
        id: 0,
        first: 0,
        last,
        capacity: ring.len() as u64,
    };
    for row in rows.chunks_exact(ROW) {
        call(rt, &mut v, ring, row);
    }
}

// The first row of a file has the ring's length and LastUsn.
fn run_file(rt: &(impl Env + Files + Print + Eprint), i: usize) {
    let mut rows = [0u8; 65536];
    let n = case_rows::read_argument(rt, i, &mut rows);
    if n < ROW {
        return;
    }
    let mut ring = [0u8; 65536];
    let capacity = size(&rows, 0, 65536);
    let last = number(&rows, 1);
    run(rt, &rows[ROW..n], &mut ring[..capacity], last);
}

fn main(rt: HostRuntime) {
    for i in 1..argument_count(&rt) {
        run_file(&rt, i);
    }
}
