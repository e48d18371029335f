// A file's line: its id, and its path below a root as text, or why it has none. Written at the start of a lent slice.
#![tactic(auto)]

mod text;

ghost use Rattle.std.specs.Prelude.{◌≡◌, false, ◌++◌, ◌+◌, ◌/◌, ◌%◌, ◌^◌, ◌≤◌, eqb, length, drop};
ghost use Rattle.hex_text.specs.Hex.{hex_word};
ghost use Rattle.file_ids.specs.Ids.{id_number};
ghost use Rattle.file_table.specs.Table.{rows};
ghost use Rattle.file_table.specs.Steps.{row_at};
ghost use Rattle.file_path.specs.Path.{way_of};
ghost use Rattle.path_listing.specs.Listing.{id_text, stop_text, way_text, path_line};

use file_ids::{FileId, id_from, id_number};
use file_table::{Table, key_at};
use status::Status;
use text::put_text;

// The longest path: 64 names of 510 bytes, and a separator between two.
const LONGEST: usize = 32766;

// ---- The id.

// Writes 64 bits in 16 digits.
fn put_half(out: &mut [u8], x: u64)
    requires { 16 ≤ length out.old }
    ensures { out.new ≡ (hex_word (x / 2 ^ 32) ++ hex_word (x % 2 ^ 32)) ++ drop 16 out.old }
{
    hex_text::put_hex_word(out, (x / 0x1_0000_0000) as u32);
    hex_text::put_hex_word(&mut out[8..], (x % 0x1_0000_0000) as u32);
}

// Writes an id in 32 digits.
fn put_id(out: &mut [u8], id: u128)
    requires { 32 ≤ length out.old }
    ensures { out.new ≡ id_text id ++ drop 32 out.old }
{
    put_half(out, (id / 0x1_0000_0000_0000_0000) as u64);
    put_half(&mut out[16..], (id % 0x1_0000_0000_0000_0000) as u64);
}

// ---- The path.

// Writes why a file has no path and returns how many bytes that takes.
fn put_stop(out: &mut [u8], x: Status) -> usize
    requires { 20 ≤ length out.old }
    ensures { (result ≡ length (stop_text x)) × (result ≤ 20) × (out.new ≡ stop_text x ++ drop result out.old) }
{
    if x == Status::NameTooLong {
        le::copy(out, b"<more than 64 steps>");
        return 20;
    }
    le::copy(out, b"<no parent>");
    11
}

// Writes the path of a file that is not the root, or why it has none, and returns how many bytes that takes.
fn put_path(out: &mut [u8], table: &Table, id: FileId, root: FileId) -> usize
    requires { (eqb (id_number id) (id_number root) ≡ false) × (98298 ≤ length out.old) }
    ensures { (result ≡ length (way_text (way_of table.now.bytes.now table.now.pool.now id root))) × (result ≤ 98298) × (out.new ≡ way_text (way_of table.now.bytes.now table.now.pool.now id root) ++ drop result out.old) }
{
    let mut path = [0u8; LONGEST];
    let answer = file_path::path_in(table, id, root, &mut path);
    if answer.status == Status::Success {
        return put_text(out, &path[..answer.count]);
    }
    put_stop(out, answer.status)
}

// Writes what is shown of a file and returns how many bytes that takes.
fn put_way(out: &mut [u8], table: &Table, id: FileId, root: FileId) -> usize
    requires { 98298 ≤ length out.old }
    ensures { (result ≡ length (way_text (way_of table.now.bytes.now table.now.pool.now id root))) × (result ≤ 98298) × (out.new ≡ way_text (way_of table.now.bytes.now table.now.pool.now id root) ++ drop result out.old) }
{
    if id_number(id) == id_number(root) {
        le::copy(out, b"<root>");
        return 6;
    }
    put_path(out, table, id, root)
}

// ---- The line.

// Writes the line of the row at `at` of a table that is right, and returns how many bytes it takes.
pub fn put_path_line(out: &mut [u8], table: &Table, root: FileId, at: usize) -> usize
    requires { (at + 56 ≤ length table.now.bytes.now) × (at % 56 ≡ 0) × (98332 ≤ length out.old) }
    ensures { (result ≡ length (path_line table.now.pool.now (rows table.now.bytes.now) (id_number root) (row_at table.now.bytes.now at))) × (result ≤ 98332) × (out.new ≡ path_line table.now.pool.now (rows table.now.bytes.now) (id_number root) (row_at table.now.bytes.now at) ++ drop result out.old) }
{
    let behind = at + 16;
    let id = id_from(&table.bytes[at..behind]);
    put_id(out, key_at(table.bytes, at));
    out[32] = b' ';
    let end = 33 + put_way(&mut out[33..], table, id, root);
    out[end] = b'\n';
    end + 1
}
