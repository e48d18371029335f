// FSCTL_ENUM_USN_DATA: USN records of a volume's files as they are now, by rising id, from a lent table of them.
#![tactic(auto)]

ghost use Rattle.std.specs.Prelude.{◌≡◌, true, ◌+◌, ◌-◌, ◌%◌, ◌≤◌, ◌<◌, length, IfSome, Some};
ghost use Rattle.status.specs.Reply.{Replied, guard, told};
ghost use Rattle.usn_record.specs.Version.{chosen};
ghost use Rattle.file_table.specs.declared.Order.TheVariants.{Rising};
ghost use Rattle.file_table.specs.Table.{rows, good_row, distinct, rising};
ghost use Rattle.file_table.specs.Steps.{row_at};
ghost use Rattle.file_enumeration.specs.Enumerate.{query_in, enum_version, from_low, to_high, selects, files_of, page_of, input_check, files_reply, enum_reply};
ghost use Rattle.file_enumeration.specs.Steps.{Leads, Ahead, lower_of, Gives, Sends};

use file_ids::id_from;
use file_table::{ATTRIBUTES, LENGTH, Order, PARENT, PLACE, ROW, Table, USN, is_below};
use file_usn::fields_of;
use record_writer::put_split;
use status::{Answer, Status};
use usn_record::{NEGATIVE, Version, input_version};
use volume::Volume;

// What a call asks for: files from an id on, with a Usn from Low to High, which are bit patterns of signed numbers.
#[derive(Clone, Copy, Debug, PartialEq, Eq)]
pub struct Query {
    pub start: u64,
    pub low: u64,
    pub high: u64,
}

// What a reply holds: the id to go on from, and the bytes of its records.
#[derive(Clone, Copy, Debug, PartialEq, Eq)]
pub struct Sent {
    pub next: u64,
    pub count: usize,
}

// ---- Which files are selected.

// Whether a Usn is Low or above.
fn from_low(low: u64, usn: u64) -> bool
    ensures { result ≡ from_low low usn }
{
    if NEGATIVE <= low {
        return true;
    }
    low <= usn
}

// Whether a Usn is High or below.
fn to_high(high: u64, usn: u64) -> bool
    ensures { result ≡ to_high high usn }
{
    if NEGATIVE <= high {
        return false;
    }
    usn <= high
}

// Whether the file of the row at `at` is selected.
fn is_selected(table: &[u8], at: usize, q: Query) -> bool
    requires { at + 56 ≤ length table.now }
    ensures { result ≡ selects q (row_at table.now at) }
{
    // the upper halves of both ids
    if le::get(table, at + 8, 8) != 0 {
        return false;
    }
    if le::get(table, at + PARENT + 8, 8) != 0 {
        return false;
    }
    if le::get(table, at, 8) < q.start {
        return false;
    }
    let usn = le::get(table, at + USN, 8);
    if !from_low(q.low, usn) {
        return false;
    }
    to_high(q.high, usn)
}

// ---- Which of them is the first.

// The first file in a table in rising order, from the row at `from` on. No file stands before that.
fn next_file(table: &[u8], from: usize, q: Query) -> Option<usize>
    requires { (length table.now % 56 ≡ 0) × (from ≤ length table.now) × (from % 56 ≡ 0) × (rising (rows table.now) ≡ true) × (Ahead q table.now from) }
    ensures { Leads q table.now result }
{
    let mut at = from;
    while at < table.len() {
        if is_selected(table, at, q) {
            return Some(at);
        }
        at += ROW;
    }
    None
}

// Of the file at `best`, if one is there, and the row at `at`: the file with the lower id.
fn lower_file(table: &[u8], best: Option<usize>, at: usize, q: Query) -> Option<usize>
    requires { (at + 56 ≤ length table.now) × (IfSome best (λ b. b + 56 ≤ length table.now)) }
    ensures { result ≡ lower_of q table.now best at }
{
    if !is_selected(table, at, q) {
        return best;
    }
    let Some(other) = best else {
        return Some(at);
    };
    if is_below(table, at, other) {
        return Some(at);
    }
    best
}

// The first file in a table in any order.
fn lowest_file(table: &[u8], q: Query) -> Option<usize>
    requires { (length table.now % 56 ≡ 0) × (distinct (rows table.now) ≡ true) }
    ensures { Leads q table.now result }
{
    let mut best = None;
    let mut at = 0;
    while at < table.len() {
        best = lower_file(table, best, at, q);
        at += ROW;
    }
    best
}

// The first file of a table: in rising order no file stands before the row at `from`.
fn first_file(table: &Table, from: usize, q: Query) -> Option<usize>
    requires { table.now.order ≡ Rising → (from ≤ length table.now.bytes.now) × (from % 56 ≡ 0) × (Ahead q table.now.bytes.now from) }
    ensures { Leads q table.now.bytes.now result }
{
    match table.order {
        Order::Rising => next_file(table.bytes, from, q),
        Order::Mixed => lowest_file(table.bytes, q),
    }
}

// ---- The reply.

// Writes the record of the file at `at` in version v at the start of `out`, if it fits, and returns its length.
fn give(out: &mut [u8], pool: &[u8], table: &[u8], at: usize, v: Version) -> Result<usize, Status>
    requires { (at + 56 ≤ length table.now) × (good_row pool.now (row_at table.now at) ≡ true) }
    ensures { Gives v pool.now (row_at table.now at) out.old result out.new }
{
    let middle = at + PARENT;
    let behind = at + USN;
    let file = id_from(&table[at..middle]);
    let parent = id_from(&table[middle..behind]);
    let usn = le::get(table, behind, 8);
    let attributes = le::get(table, at + ATTRIBUTES, 4);
    let fields = fields_of(file, parent, usn, attributes as u32);
    let from = le::get(table, at + PLACE, 8) as usize;
    let to = from + le::get(table, at + LENGTH, 4) as usize;
    put_split(out, v, fields, &pool[from..to], &pool[to..to])
}

// Writes the records of the files from the first one, which stands at `first`, on, up to the first that does not fit.
fn fill(out: &mut [u8], table: &Table, first: usize, q: Query, v: Version) -> Sent
    requires { Leads q table.now.bytes.now (Some first) }
    ensures { Sends v table.now.pool.now (page_of v table.now.pool.now (length out.old) q.start (files_of q table.now.bytes.now)) out.old result out.new }
{
    let low = q.low;
    let high = q.high;
    let mut next = q.start;
    let mut place = Some(first);
    let mut done = 0;
    while let Some(at) = place {
        let id = le::get(table.bytes, at, 8);
        let Ok(count) = give(&mut out[done..], table.pool, table.bytes, at, v) else {
            return Sent {
                next: id,
                count: done,
            };
        };
        done += count;
        next = id + 1;
        let rest = Query {
            start: next,
            low,
            high,
        };
        place = first_file(table, at + ROW, rest);
    }
    Sent { next, count: done }
}

// The version to reply in, or the first check of the input that refuses the call.
#[tactic(auto, unfolding(crate::specs::Enumerate::input_check))]
fn judge_input(input: &[u8], room: usize) -> Result<Version, Status>
    ensures { result ≡ chosen (input_check input.now room) (enum_version input.now) }
{
    if input.len() < 24 {
        return Err(Status::InvalidParameter);
    }
    let version = input_version(input, 32, 24)?;
    if room < 8 {
        return Err(Status::BufferTooSmall);
    }
    Ok(version)
}

// Replies with the files of a query: the id to go on from, and their records.
fn give_files(output: &mut [u8], table: &Table, q: Query, v: Version) -> Result<usize, Status>
    requires { 8 ≤ length output.old }
    ensures { Replied (files_reply v table.now.pool.now q table.now.bytes.now (length output.old)) (told result) output.old output.new }
{
    let Some(first) = first_file(table, 0, q) else {
        return Err(Status::EndOfFile);
    };
    let sent = fill(&mut output[8..], table, first, q, v);
    if sent.count == 0 {
        return Err(Status::BufferTooSmall);
    }
    le::put(output, 8, sent.next);
    Ok(8 + sent.count)
}

// Enumerates the files of a table that is right.
fn enumerate_judged(table: &Table, input: &[u8], output: &mut [u8]) -> Result<usize, Status>
    ensures { Replied (guard (input_check input.now (length output.old)) (files_reply (enum_version input.now) table.now.pool.now (query_in input.now) table.now.bytes.now (length output.old))) (told result) output.old output.new }
{
    let version = judge_input(input, output.len())?;
    let q = Query {
        start: le::get(input, 0, 8),
        low: le::get(input, 8, 8),
        high: le::get(input, 16, 8),
    };
    give_files(output, table, q, version)
}

// The reply of a whole enumeration.
#[tactic(auto, unfolding(crate::specs::Enumerate::enum_reply, crate::specs::Enumerate::enum_check))]
fn reply(
    v: Volume,
    table: &[u8],
    pool: &[u8],
    input: &[u8],
    output: &mut [u8],
) -> Result<usize, Status>
    ensures { Replied (enum_reply v table.now pool.now input.now (length output.old)) (told result) output.old output.new }
{
    if v.journal == 0 {
        return Err(Status::InvalidDeviceRequest);
    }
    match Table::judge(table, pool) {
        None => Err(Status::FileCorruptError),
        Some(table) => enumerate_judged(&table, input, output),
    }
}

// Enumerates the files of a table by rising id. Their names stand in the pool.
pub fn enumerate_files(
    v: Volume,
    table: &[u8],
    pool: &[u8],
    input: &[u8],
    output: &mut [u8],
) -> Answer
    ensures { Replied (enum_reply v table.now pool.now input.now (length output.old)) result output.old output.new }
{
    Answer::from(reply(v, table, pool, input, output))
}
