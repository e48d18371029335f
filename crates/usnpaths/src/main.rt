// Shows the path of each file that captured replies of an enumeration tell of. No contract can speak of what the system reads or writes: the
// table is made by `add_reply`, judged by `Table::judge`, and each line is `put_path_line`'s.
#![tactic(auto)]

mod root;
mod table;

ghost use Rattle.std.specs.Prelude.{◌≡◌, ◌≤◌, length};
ghost use Rattle.usnpaths.specs.Rows.{Inside, AddedInside};

use file_ids::FileId;
use file_table::{ROW, Table};
use program_io::{Words, argument, argument_count, complain, fail};
use std::env::Env;
use std::rt::Files;
use table::{Extent, Unfit};

// The longest reply. A file is read into a byte more: one that fills that is longer, whatever follows.
const REPLY: usize = 65536;

// The table, of 65,536 rows, and the pool of their names: with the other buffers they leave more than two megabytes of the usual stack of eight, which
// arguments may take.
const TABLE: usize = 3670016;

const POOL: usize = 2097152;

// The room that the longest line wants.
const LINE: usize = 98332;

// What is taken of the table and the pool, and whether every file so far was good. A bad file ends nothing: the ones behind it are told of too,
// so the flag stands beside what is taken, and no Result would.
#[derive(Clone, Copy, Debug, PartialEq, Eq)]
struct Taken {
    extent: Extent,
    good: bool,
}

// ---- What it says.

fn say_usage(rt: &impl Eprint) {
    complain(rt, "usage: usnpaths ROOT FILE..\n");
}

// Says what is wrong with a file.
fn say(rt: &impl Eprint, name: &[u8], text: &str) {
    complain(rt, format_args!("{}{text}", Words(name)));
}

fn say_bad(rt: &impl Eprint, name: &[u8], place: usize) {
    complain(rt, format_args!("{}: bad at {place}\n", Words(name)));
}

// Says why a file is not added. Where the system failed, that is said already.
fn say_why(rt: &impl Eprint, name: &[u8], why: Unfit) {
    match why {
        Unfit::BadAt(place) => say_bad(rt, name, place),
        Unfit::ManyFiles => say(rt, name, ": more than 65536 records\n"),
        Unfit::LongNames => say(rt, name, ": names of more than 2097152 bytes\n"),
        Unfit::Unread => {}
    }
}

// ---- The table.

// Adds the reply in a file.
fn add_file(
    rt: &(impl Files + Eprint),
    name: &[u8],
    table: &mut [u8],
    pool: &mut [u8],
    taken: Extent,
) -> Result<Extent, Unfit>
    requires { Inside (length table.old) (length pool.old) taken.rows taken.names }
    ensures { AddedInside (length table.old) (length pool.old) result }
{
    let mut reply = [0u8; REPLY + 1];
    let n = image_file::fetch(rt, name, &mut reply).ok_or(Unfit::Unread)?;
    if REPLY < n {
        return Err(Unfit::BadAt(REPLY));
    }
    table::add_reply(table, pool, &reply[..n], taken)
}

// Adds a file behind what is taken. What a bad one left there is not taken.
fn add_named(
    rt: &(impl Files + Eprint),
    name: &[u8],
    table: &mut [u8],
    pool: &mut [u8],
    taken: Taken,
) -> Taken
    requires { Inside (length table.old) (length pool.old) taken.extent.rows taken.extent.names }
    ensures { Inside (length table.old) (length pool.old) result.extent.rows result.extent.names }
{
    match add_file(rt, name, table, pool, taken.extent) {
        Ok(extent) => Taken { extent, ..taken },
        Err(why) => {
            say_why(rt, name, why);
            Taken {
                good: false,
                ..taken
            }
        }
    }
}

// Adds the file that argument i names. A name that is too long for any file is read as an empty one, which names none.
fn add_argument(
    rt: &(impl Env + Files + Eprint),
    i: usize,
    table: &mut [u8],
    pool: &mut [u8],
    taken: Taken,
) -> Taken
    requires { Inside (length table.old) (length pool.old) taken.extent.rows taken.extent.names }
    ensures { Inside (length table.old) (length pool.old) result.extent.rows result.extent.names }
{
    let mut name = [0u8; 4096];
    let n = argument(rt, i, &mut name);
    if n == 0 {
        say_usage(rt);
        return Taken {
            good: false,
            ..taken
        };
    }
    add_named(rt, &name[..n], table, pool, taken)
}

// Adds the file of each argument from 2 on.
fn add_arguments(
    rt: &(impl Env + Files + Eprint),
    table: &mut [u8],
    pool: &mut [u8],
    count: usize,
) -> Taken
    ensures { Inside (length table.old) (length pool.old) result.extent.rows result.extent.names }
{
    let mut taken = Taken {
        extent: Extent { rows: 0, names: 0 },
        good: true,
    };
    for i in 2..count {
        taken = add_argument(rt, i, table, pool, taken);
    }
    taken
}

// ---- The paths.

// Writes the line of each row of a table that is right. `line` has room for one.
fn show_rows(rt: &(impl Print + Eprint), line: &mut [u8], table: &Table, root: FileId)
    requires { 98332 ≤ length line.old }
{
    let mut at = 0;
    while at < table.bytes.len() {
        let n = path_listing::put_path_line(line, table, root, at);
        if let Err(error) = rt.write_all(&line[..n]) {
            fail(rt, b"write", error);
            return;
        }
        at += ROW;
    }
}

// Judges the table, and shows its paths if it is right. Each of its rows is a record's: only an id that stands twice can be wrong.
fn show(rt: &(impl Print + Eprint), table: &[u8], pool: &[u8], root: FileId) {
    let mut line = [0u8; LINE];
    match Table::judge(table, pool) {
        None => complain(rt, "an id stands twice\n"),
        Some(table) => show_rows(rt, &mut line, &table, root),
    }
}

// Adds the files, and shows their paths if each was good.
fn show_files(
    rt: &(impl Env + Files + Print + Eprint),
    table: &mut [u8],
    pool: &mut [u8],
    root: FileId,
    count: usize,
) {
    let taken = add_arguments(rt, table, pool, count);
    if !taken.good {
        return;
    }
    let Extent { rows, names } = taken.extent;
    show(rt, &table[..rows], &pool[..names], root);
}

// Lends the table and the pool as slices. A reference to an array tells its length by its type: nothing counts its bytes.
fn lend(
    rt: &(impl Env + Files + Print + Eprint),
    table: &mut [u8; TABLE],
    pool: &mut [u8; POOL],
    root: FileId,
    count: usize,
) {
    show_files(rt, table, pool, root, count);
}

fn show_paths(rt: &(impl Env + Files + Print + Eprint), root: FileId, count: usize) {
    let mut table = [0u8; TABLE];
    let mut pool = [0u8; POOL];
    lend(rt, &mut table, &mut pool, root, count);
}

// ---- The arguments.

// The id that argument 1 says. A word that does not fit is read as an empty one.
fn root_asked(rt: &impl Env) -> Option<u128> {
    let mut word = [0u8; 34];
    let n = argument(rt, 1, &mut word);
    root::read_root(&word[..n])
}

fn main(rt: HostRuntime) {
    let count = argument_count(&rt);
    if count < 3 {
        say_usage(&rt);
        return;
    }
    match root_asked(&rt) {
        Some(id) => show_paths(&rt, id.to_le_bytes(), count),
        None => say_usage(&rt),
    }
}
