// FSCTL_READ_FILE_USN_DATA: a USN record of the file as it is now.
#![tactic(auto)]

ghost use Rattle.std.specs.Prelude.{◌≡◌, true, List, ℕ, length};
ghost use Rattle.status.specs.Reply.{Replied, told};
ghost use Rattle.usn_record.specs.Version.{chosen};
ghost use Rattle.file_links.specs.Links.{name_at, good_link};
ghost use Rattle.file_usn.specs.FileUsn.{file_version, file_check, current_fields, file_fields, file_answer, named_reply, table_reply};

use file_ids::FileId;
use file_links::{Link, choose_link, good_table, no_link};
use file_record::FileRecord;
use record_writer::put_split;
use status::{Answer, Status};
use usn_record::{Fields, Version, input_version, name_offset, shows_ids};
use volume::Volume;

// The version to reply in, or the first check that refuses the call. `table` says whether the table of links is right.
#[tactic(auto, unfolding(crate::specs::FileUsn::file_check))]
fn judge_file(
    v: Volume,
    f: FileRecord,
    parent: FileId,
    table: bool,
    input: &[u8],
    room: usize,
) -> Result<Version, Status>
    ensures { result ≡ chosen (file_check v f parent table input.now room) (file_version input.now) }
{
    if v.usn == 0 {
        return Err(Status::InvalidDeviceRequest);
    }
    if 0x8000_0000_0000_0000 <= f.usn {
        return Err(Status::FileCorruptError);
    }
    if !table {
        return Err(Status::FileCorruptError);
    }
    let version = input_version(input, 4, 0)?;
    if room < name_offset(version) + 4 {
        return Err(Status::BufferTooSmall);
    }
    let file = f.id;
    if !shows_ids(version, file, parent) {
        return Err(Status::NotSupported);
    }
    Ok(version)
}

// The fields of the record of a file as it is now.
pub fn fields_of(file: FileId, parent: FileId, usn: u64, attributes: u32) -> Fields
    ensures { result ≡ current_fields file parent usn attributes }
{
    Fields {
        file,
        parent,
        usn,
        time: 0,
        reason: 0,
        source: 0,
        security: 0,
        attributes,
    }
}

// Writes the record of a file, with the name of a good link, in version v. The table was judged, so the name is not judged again.
fn write_file(
    v: Version,
    fields: Fields,
    pool: &[u8],
    link: Link,
    output: &mut [u8],
) -> Result<usize, Status>
    requires { good_link pool.now link ≡ true }
    ensures { (f : FileRecord) (p : List ℕ) → fields ≡ file_fields f p
        → Replied (file_answer v f p (name_at pool.now link) (length output.old)) (told result) output.old output.new }
{
    let from = link.place as usize;
    let to = from + link.length as usize;
    put_split(output, v, fields, &pool[from..to], &pool[to..to])
}

// Judges the call, and writes the file's record.
fn reply(
    v: Volume,
    f: FileRecord,
    parent: FileId,
    pool: &[u8],
    table: bool,
    link: Link,
    input: &[u8],
    output: &mut [u8],
) -> Result<usize, Status>
    requires { table ≡ true → good_link pool.now link ≡ true }
    ensures { Replied (named_reply v f parent table (name_at pool.now link) input.now (length output.old)) (told result) output.old output.new }
{
    let version = judge_file(v, f, parent, table, input, output.len())?;
    let file = f.id;
    let fields = fields_of(file, parent, f.usn, f.attributes);
    write_file(version, fields, pool, link, output)
}

// Reads a file's USN data, once its table of links is judged and the link whose name stands for it is chosen.
pub fn read_chosen(
    v: Volume,
    f: FileRecord,
    parent: FileId,
    pool: &[u8],
    table: bool,
    link: Link,
    input: &[u8],
    output: &mut [u8],
) -> Answer
    requires { table ≡ true → good_link pool.now link ≡ true }
    ensures { Replied (named_reply v f parent table (name_at pool.now link) input.now (length output.old)) result output.old output.new }
{
    Answer::from(reply(v, f, parent, pool, table, link, input, output))
}

// Reads a file's USN data. The parent is that of the open's own link; the links are lent as the places and lengths of their names
// in the pool and the lengths of their short names.
pub fn read_file_usn(
    v: Volume,
    f: FileRecord,
    parent: FileId,
    pool: &[u8],
    places: &[u32],
    lengths: &[u32],
    shorts: &[u32],
    input: &[u8],
    output: &mut [u8],
) -> Answer
    ensures { Replied (table_reply v f parent pool.now places.now lengths.now shorts.now input.now (length output.old)) result output.old output.new }
{
    if !good_table(pool, places, lengths, shorts) {
        return read_chosen(v, f, parent, pool, false, no_link(), input, output);
    }
    let link = choose_link(places, lengths, shorts);
    read_chosen(v, f, parent, pool, true, link, input, output)
}
