// A file's path below a root, from a lent table of the volume's files: the names on the way from the root down, with a code unit 0x5C between
// two of them. The way goes from each file to its parent, and is taken twice: for the path's length, and to write it.
#![tactic(auto)]

ghost use Rattle.std.specs.Prelude.{◌≡◌, true, ◌+◌, ◌≤◌, length};
ghost use Rattle.status.specs.Reply.{Replied, told};
ghost use Rattle.file_table.specs.Table.{rows, good_row};
ghost use Rattle.file_table.specs.Steps.{row_at};
ghost use Rattle.file_path.specs.Path.{upward, way_of, way_reply, path_reply};
ghost use Rattle.file_path.specs.Steps.{path_of, Fits, extent_of, part, Writes};

use file_ids::{FileId, id_number};
use file_table::{LENGTH, PARENT, PLACE, Table, key_at};
use status::{Answer, Status};

// The steps that a way has at most.
const STEPS: usize = 64;

// ---- Its length.

// How many bytes the path of an id has, with so many steps left. The error is why there is none.
fn measure(table: &Table, root: u128, id: u128, left: usize) -> Result<usize, Status>
    requires { left ≤ 64 }
    ensures { result ≡ extent_of (upward table.now.pool.now (rows table.now.bytes.now) root left id) }
{
    if id == root {
        return Ok(0);
    }
    if left == 0 {
        return Err(Status::NameTooLong);
    }
    let Some(at) = table.find(id) else {
        return Err(Status::ObjectPathNotFound);
    };
    let parent = key_at(table.bytes, at + PARENT);
    let n = measure(table, root, parent, left - 1)?;
    let length = le::get(table.bytes, at + LENGTH, 4) as usize;
    // the root has no name
    if parent == root {
        return Ok(length);
    }
    Ok(n + 2 + length)
}

// ---- Its bytes.

// Writes the name of the row at `at`, with the separator in front of it unless it is the first, and returns how many bytes that takes.
fn put_name(out: &mut [u8], table: &Table, at: usize, first: bool) -> usize
    requires { (at + 56 ≤ length table.now.bytes.now) × (good_row table.now.pool.now (row_at table.now.bytes.now at) ≡ true) × (length (part first table.now.pool.now (row_at table.now.bytes.now at)) ≤ length out.old) }
    ensures { Writes (part first table.now.pool.now (row_at table.now.bytes.now at)) out.old result out.new }
{
    let from = le::get(table.bytes, at + PLACE, 8) as usize;
    let length = le::get(table.bytes, at + LENGTH, 4) as usize;
    let name = &table.pool[from..from + length];
    if first {
        le::copy(out, name);
        return length;
    }
    le::put(out, 2, 0x5C);
    le::copy(&mut out[2..], name);
    2 + length
}

// Writes the path of an id that has one in so many steps, and returns how many bytes that takes.
fn put_path(out: &mut [u8], table: &Table, root: u128, id: u128, left: usize) -> usize
    requires { Fits (upward table.now.pool.now (rows table.now.bytes.now) root left id) (length out.old) }
    ensures { Writes (path_of (upward table.now.pool.now (rows table.now.bytes.now) root left id)) out.old result out.new }
{
    if id == root {
        return 0;
    }
    let at = table.find(id).unwrap();
    let parent = key_at(table.bytes, at + PARENT);
    let n = put_path(out, table, root, parent, left - 1);
    n + put_name(&mut out[n..], table, at, parent == root)
}

// ---- The reply.

// The path of a file in a table that is right, or why it has none.
fn reply(table: &Table, id: FileId, root: FileId, output: &mut [u8]) -> Result<usize, Status>
    ensures { Replied (way_reply (way_of table.now.bytes.now table.now.pool.now id root) (length output.old)) (told result) output.old output.new }
{
    let file = id_number(id);
    let top = id_number(root);
    if output.len() < measure(table, top, file, STEPS)? {
        return Err(Status::BufferTooSmall);
    }
    Ok(put_path(output, table, top, file, STEPS))
}

// The same, for a caller that has judged the table and asks for many paths.
pub fn path_in(table: &Table, id: FileId, root: FileId, output: &mut [u8]) -> Answer
    ensures { Replied (way_reply (way_of table.now.bytes.now table.now.pool.now id root) (length output.old)) result output.old output.new }
{
    Answer::from(reply(table, id, root, output))
}

// The path of a file below a root. The table is judged first, all of it.
pub fn file_path(table: &[u8], pool: &[u8], id: FileId, root: FileId, output: &mut [u8]) -> Answer
    ensures { Replied (path_reply table.now pool.now id root (length output.old)) result output.old output.new }
{
    match Table::judge(table, pool) {
        None => Answer::from(Err(Status::FileCorruptError)),
        Some(table) => path_in(&table, id, root, output),
    }
}
