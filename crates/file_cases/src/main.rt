// Runs the controls on one file over rows of nine numbers and prints what each answers, for the gate. The rows, and the lines that
// must come of them, are made by tools/make_files.py, which shares nothing with the crates.
#![tactic(auto)]

ghost use Rattle.std.specs.Prelude.{◌≤◌};

use case_rows::{ROW, digest, number, print, print_number, print_status, size, word};
use file_ids::id_of;
use file_record::FileRecord;
use program_io::argument_count;
use status::Answer;
use std::env::Env;
use std::rt::Files;
use volume::Volume;

// Prints status, count and a digest of the whole output.
fn tell(rt: &impl Print, label: &[u8], answer: Answer, output: &[u8]) {
    print(rt, label);
    print_status(rt, answer.status);
    print_number(rt, answer.count as u64);
    print_number(rt, digest(output));
    print(rt, b"\n");
}

// Fills a buffer with bytes that differ from their neighbours.
fn pattern(s: &mut [u8], step: usize)
    requires { step ≤ 250 }
{
    for (i, byte) in s.iter_mut().enumerate() {
        *byte = (i % 251 * step % 251) as u8;
    }
}

// A volume with these support flags.
fn volume(usn: u32, regions: u32, reparse: u32, points: u32) -> Volume {
    Volume {
        usn,
        regions,
        reparse,
        points,
        journal: 0,
        state: 0,
        id: 0,
        first: 0,
        last: 0,
        capacity: 0,
    }
}

// The file of a row: usn, attributes, eof, valid data length, tag, and the length of the reparse data.
fn file(usn: u64, attributes: u32, eof: u64, valid: u64, tag: u32, length: u64) -> FileRecord {
    FileRecord {
        id: id_of(0x1122_3344_5566_7788),
        attributes,
        usn,
        eof,
        valid,
        tag,
        guid: [1, 2, 3, 4, 5, 6, 7, 8, 9, 10, 11, 12, 13, 14, 15, 16],
        length,
    }
}

// Regions: support, eof, valid data length, the input's length, offset, length, usage, room.
fn regions(rt: &impl Print, row: &[u8], output: &mut [u8]) {
    let mut input = [0u8; 32];
    le::put_two(&mut input, 8, number(row, 5), number(row, 6));
    le::put(&mut input[16..], 4, number(row, 7));
    let wide = size(row, 4, 32);
    let room = size(row, 8, output.len());
    let v = volume(0, word(row, 1), 0, 0);
    let f = file(0, 0, number(row, 2), number(row, 3), 0, 0);
    let answer = file_regions::query_file_regions(v, f, &input[..wide], &mut output[..room]);
    tell(rt, b"regions", answer, output);
}

// Reparse point: both support flags, tag, the data's length, room.
fn reparse(rt: &impl Print, row: &[u8], store: &[u8], output: &mut [u8]) {
    let room = size(row, 5, output.len());
    let v = volume(0, 0, word(row, 1), word(row, 2));
    let f = file(0, 0, 0, 0, word(row, 3), number(row, 4));
    let answer = reparse_point::get_reparse_point(v, f, store, &mut output[..room]);
    tell(rt, b"reparse", answer, output);
}

// Takes number i of each row of a table.
fn column(table: &[u8], i: usize, out: &mut [u32])
    requires { i ≤ 8 }
{
    for (x, row) in out.iter_mut().zip(table.chunks_exact(ROW)) {
        *x = word(row, i);
    }
}

// USN data: support, usn, attributes, parent, the input's length, both versions, room, and how many short lengths are lent. The
// rows of the table have the place and length of each link's name and the length of its short name.
fn usn(rt: &impl Print, row: &[u8], table: &[u8], pool: &[u8], output: &mut [u8]) {
    let mut places = [0u32; 16];
    let mut lengths = [0u32; 16];
    let mut shorts = [0u32; 16];
    column(table, 0, &mut places);
    column(table, 1, &mut lengths);
    column(table, 2, &mut shorts);
    let count = table.len() / ROW;
    let n = if count < 16 { count } else { 16 };
    usn_of(
        rt,
        row,
        pool,
        &places[..n],
        &lengths[..n],
        &shorts[..n],
        output,
    );
}

fn usn_of(
    rt: &impl Print,
    row: &[u8],
    pool: &[u8],
    places: &[u32],
    lengths: &[u32],
    shorts: &[u32],
    output: &mut [u8],
) {
    let mut input = [0u8; 8];
    le::put(&mut input, 8, number(row, 6));
    let wide = size(row, 5, 8);
    let room = size(row, 7, output.len());
    let k = size(row, 8, shorts.len());
    let v = volume(word(row, 1), 0, 0, 0);
    let f = file(number(row, 2), word(row, 3), 0, 0, 0, 0);
    let parent = id_of(number(row, 4));
    let answer = file_usn::read_file_usn(
        v,
        f,
        parent,
        pool,
        places,
        lengths,
        &shorts[..k],
        &input[..wide],
        &mut output[..room],
    );
    tell(rt, b"usn", answer, output);
}

// What a row calls for.
#[derive(Clone, Copy, Debug, PartialEq, Eq)]
enum Kind {
    Regions,
    Reparse,
    Usn,
}

impl From<u64> for Kind {
    fn from(n: u64) -> Kind {
        match n {
            0 => Kind::Regions,
            1 => Kind::Reparse,
            _ => Kind::Usn,
        }
    }
}

fn call(rt: &impl Print, row: &[u8], table: &[u8], pool: &[u8], output: &mut [u8]) {
    pattern(output, 7);
    match Kind::from(number(row, 0)) {
        Kind::Regions => regions(rt, row, output),
        Kind::Reparse => reparse(rt, row, pool, output),
        Kind::Usn => usn(rt, row, table, pool, output),
    }
}

fn run(rt: &impl Print, rows: &[u8], table: &[u8], pool: &[u8], output: &mut [u8]) {
    for row in rows.chunks_exact(ROW) {
        call(rt, row, table, pool, output);
    }
}

// The first row has the number of links and the lengths of pool and output; then come the links, then the calls.
fn run_rows(rt: &impl Print, rows: &[u8]) {
    if rows.len() < ROW {
        return;
    }
    let links = size(rows, 0, 16);
    let table = ROW + links * ROW;
    if rows.len() < table {
        return;
    }
    let mut pool = [0u8; 65536];
    pattern(&mut pool, 3);
    let mut output = [0u8; 65536];
    let n = size(rows, 1, 65536);
    let room = size(rows, 2, 65536);
    run(
        rt,
        &rows[table..],
        &rows[ROW..table],
        &pool[..n],
        &mut output[..room],
    );
}

fn run_file(rt: &(impl Env + Files + Print + Eprint), i: usize) {
    let mut rows = [0u8; 65536];
    let n = case_rows::read_argument(rt, i, &mut rows);
    run_rows(rt, &rows[..n]);
}

fn main(rt: HostRuntime) {
    for i in 1..argument_count(&rt) {
        run_file(&rt, i);
    }
}
