// The table of a volume's files, made of the records of replies: a row for each record, and its name in the pool.
ghost use Rattle.std.specs.Prelude.{◌≡◌, true, ◌++◌, ◌∷◌, [], ◌-◌, ◌^◌, ◌≤◌, ◌<◌, eqb, length, drop};
ghost use Rattle.le.specs.Numbers.{encode};
ghost use Rattle.file_ids.specs.Ids.{id_number};
ghost use Rattle.records.specs.Records.{record_list, records};
ghost use Rattle.reply_walker.specs.Reply.{records_of};
ghost use Rattle.usn_listing.specs.Listing.{is_whole};
ghost use Rattle.file_table.specs.Table.{row_in};
ghost use Rattle.usnpaths.specs.declared.table.Unfit.TheVariants.{BadAt};
ghost use Rattle.usnpaths.specs.Rows.{row_of, added_of, reply_added, Holds, Inside, AddedInside};

use file_ids::{FileId, id_number};
use file_table::ROW;
use record_reader::BadRecord;
use usn_record::Fields;

// How many bytes of the table and of the pool are taken.
#[derive(Clone, Copy, Debug, PartialEq, Eq)]
pub struct Extent {
    pub rows: usize,
    pub names: usize,
}

// Why a reply is not added.
#[derive(Clone, Copy, Debug, PartialEq, Eq)]
pub enum Unfit {
    BadAt(usize),
    ManyFiles,
    LongNames,
    // the system failed to read it
    Unread,
}

impl From<BadRecord> for Unfit {
    ghost from_gives = { λ b u. u ≡ BadAt b.at };

    fn from(bad: BadRecord) -> Unfit {
        Unfit::BadAt(bad.at)
    }
}

// ---- A row.

// Writes the two ids.
fn put_ids(out: &mut [u8], id: FileId, parent: FileId)
    requires { 32 ≤ length out.old }
    ensures { out.new ≡ (id ++ parent) ++ drop 32 out.old }
{
    le::copy(out, &id);
    le::copy(&mut out[16..], &parent);
}

// Writes the four numbers behind them.
fn put_numbers(out: &mut [u8], usn: u64, attributes: u32, size: usize, place: usize)
    requires { 24 ≤ length out.old }
    ensures { out.new ≡ encode (8 ∷ 4 ∷ 4 ∷ 8 ∷ []) (usn ∷ attributes ∷ size ∷ place ∷ []) ++ drop 24 out.old }
{
    le::put(out, 8, usn);
    le::put_two(&mut out[8..], 4, attributes as u64, size as u64);
    le::put(&mut out[16..], 8, place as u64);
}

// Writes the row of a file whose name has so many bytes and stands at a place of the pool.
fn put_row(out: &mut [u8], fields: Fields, size: usize, place: usize)
    requires { (size < 256 ^ 4) × (56 ≤ length out.old) }
    ensures { (row_in out.new ≡ row_of fields size place) × (drop 56 out.new ≡ drop 56 out.old) }
{
    let id = fields.file;
    let parent = fields.parent;
    put_ids(out, id, parent);
    put_numbers(&mut out[32..], fields.usn, fields.attributes, size, place);
}

// ---- The rows of a reply.

// Whether no row can have this id: no reply could hold the one behind it.
fn is_last(id: FileId) -> bool
    ensures { result ≡ eqb (id_number id) (2 ^ 64 - 1) }
{
    id_number(id) == 0xFFFF_FFFF_FFFF_FFFF
}

// Adds the records that `s` has from 8 on, if they are whole.
fn add_records(table: &mut [u8], pool: &mut [u8], s: &[u8], taken: Extent) -> Result<Extent, Unfit>
    requires { (is_whole (records 8 (drop 8 s.now)) ≡ true) × (8 ≤ length s.now) × (length s.now ≤ 65536) × (Inside (length table.old) (length pool.old) taken.rows taken.names) }
    ensures { (result ≡ added_of (length table.old) (length pool.old) 8 taken (record_list (records 8 (drop 8 s.now)))) × (Holds table.old pool.old taken (record_list (records 8 (drop 8 s.now))) table.new pool.new result) × (AddedInside (length table.old) (length pool.old) result) }
{
    let mut rows = taken.rows;
    let mut names = taken.names;
    let mut at = 8;
    while at < s.len() {
        let entry = record_reader::entry_at(s, at);
        let fields = entry.fields;
        let id = fields.file;
        let name = entry.name;
        let length = entry.length;
        if is_last(id) {
            return Err(Unfit::BadAt(at));
        }
        if table.len() - rows < ROW {
            return Err(Unfit::ManyFiles);
        }
        if pool.len() - names < length {
            return Err(Unfit::LongNames);
        }
        put_row(&mut table[rows..], fields, length, names);
        let behind = name + length;
        le::copy(&mut pool[names..], &s[name..behind]);
        rows += ROW;
        names += length;
        at = entry.next;
    }
    Ok(Extent { rows, names })
}

// Adds a reply behind what is taken, or says why not.
pub fn add_reply(
    table: &mut [u8],
    pool: &mut [u8],
    s: &[u8],
    taken: Extent,
) -> Result<Extent, Unfit>
    requires { (length s.now ≤ 65536) × (Inside (length table.old) (length pool.old) taken.rows taken.names) }
    ensures { (result ≡ reply_added (length table.old) (length pool.old) taken (records_of s.now)) × (Holds table.old pool.old taken (record_list (records_of s.now)) table.new pool.new result) × (AddedInside (length table.old) (length pool.old) result) }
{
    reply_walker::walk_reply(s)?;
    add_records(table, pool, s, taken)
}
