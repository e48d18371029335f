// FSCTL_SET_REPARSE_POINT and FSCTL_DELETE_REPARSE_POINT: a file's reparse point is set or deleted, and the change is posted.
#![tactic(auto)]

ghost use Rattle.std.specs.Prelude.{◌≡◌, true, not, ◌&&◌, ◌||◌, ◌≤◌, ◌<◌, eqb, length, None};
ghost use Rattle.status.specs.Check.{else, judged};
ghost use Rattle.reparse_point.specs.Reparse.{points_check};
ghost use Rattle.reparse_update.specs.Update.{given_tag, given_length, given_guid, is_laid_out, is_delete, has_other_tag, has_other_guid, given_check, Updates};
ghost use Rattle.reparse_update.specs.Steps.{Posts, moved};

use file_record::FileRecord;
use journal_post::{Change, post};
use reparse_point::{header_length, judge_point};
use status::Status;
use volume::Volume;

// Which of the two a call is.
#[derive(Clone, Copy, Debug, PartialEq, Eq)]
pub enum Update {
    Set,
    Delete,
}

// ---- The input.

// The tag of an input that has one.
fn tag_given(input: &[u8]) -> u32
    requires { 4 ≤ length input.now }
    ensures { result ≡ given_tag input.now }
{
    le::get(input, 0, 4) as u32
}

// The length that it says its data has.
fn length_given(input: &[u8]) -> u64
    requires { 6 ≤ length input.now }
    ensures { (result ≡ given_length input.now) × (result < 65536) }
{
    le::get(input, 4, 2)
}

// Whether an input is whole and right, in the layout of its tag.
#[tactic(auto, using(crate::proofs::Input::headers), unfolding(crate::specs::Update::is_laid_out))]
fn laid_out(input: &[u8]) -> bool
    ensures { result ≡ is_laid_out input.now }
{
    if input.len() < 8 {
        return false;
    }
    let head = header_length(tag_given(input));
    if input.len() < head {
        return false;
    }
    if head + length_given(input) as usize != input.len() {
        return false;
    }
    if 16384 < input.len() {
        return false;
    }
    le::get(input, 6, 2) == 0
}

// The GUID that is stored with its tag.
#[tactic(auto, using(crate::proofs::Input::laid))]
fn guid_given(input: &[u8]) -> [u8; 16]
    requires { is_laid_out input.now ≡ true }
    ensures { result ≡ given_guid input.now }
{
    let mut guid = [0u8; 16];
    if tag_given(input) < 0x8000_0000 {
        le::copy(&mut guid, &input[8..24]);
    }
    guid
}

// ---- The checks.

// Whether the input has no data where it must have none.
fn right_data(u: Update, input: &[u8]) -> bool
    requires { 6 ≤ length input.now }
    ensures { result ≡ not (is_delete u) || eqb (given_length input.now) 0 }
{
    match u {
        Update::Set => true,
        Update::Delete => length_given(input) == 0,
    }
}

// Whether a file with this tag has the point that is to be deleted.
fn has_target(u: Update, tag: u32) -> bool
    ensures { result ≡ not (is_delete u && eqb tag 0) }
{
    match u {
        Update::Set => true,
        Update::Delete => tag != 0,
    }
}

// Whether another tag than this stands.
fn has_other_tag(f: FileRecord, tag: u32) -> bool
    ensures { result ≡ has_other_tag f tag }
{
    if f.tag == 0 {
        return false;
    }
    f.tag != tag
}

// Whether the tag of the input stands with another GUID.
#[tactic(auto, using(crate::proofs::Input::laid))]
fn has_other_guid(f: FileRecord, input: &[u8]) -> bool
    requires { is_laid_out input.now ≡ true }
    ensures { result ≡ has_other_guid f input.now }
{
    if f.tag != tag_given(input) {
        return false;
    }
    if 0x8000_0000 <= f.tag {
        return false;
    }
    f.guid != guid_given(input)
}

// Judges a call but for its post, in the order of the checks.
#[tactic(auto, using(crate::proofs::Input::laid), unfolding(crate::specs::Update::given_check))]
fn judge_update(u: Update, v: Volume, f: FileRecord, n: usize, input: &[u8]) -> Result<(), Status>
    ensures { result ≡ judged (else (points_check v) (given_check u f n input.now)) }
{
    judge_point(v, f, n)?;
    if !laid_out(input) {
        return Err(Status::IoReparseDataInvalid);
    }
    if !right_data(u, input) {
        return Err(Status::IoReparseDataInvalid);
    }
    let tag = tag_given(input);
    if tag == 0 {
        return Err(Status::IoReparseTagInvalid);
    }
    if !has_target(u, f.tag) {
        return Err(Status::NotAReparsePoint);
    }
    if has_other_tag(f, tag) {
        return Err(Status::IoReparseTagMismatch);
    }
    if has_other_guid(f, input) {
        return Err(Status::ReparseAttributeConflict);
    }
    Ok(())
}

// ---- The calls.

// What a post that is not refused leaves: the journal's first and last position, and the file's Usn.
#[derive(Clone, Copy)]
struct Posted {
    first: u64,
    last: u64,
    usn: u64,
}

// Posts the change of a file's reparse point. Both records stay: what the post leaves of them is stored behind the data.
fn post_point(
    v: Volume,
    ring: &mut [u8],
    usn: u64,
    c: Change,
    name: &[u8],
) -> Result<Posted, Status>
    ensures { Posts v ring.old usn c name.now result ring.new }
{
    let mut change = c;
    change.reason = 0x0010_0000;
    let mut next = v;
    let mut usn = usn;
    post(&mut next, ring, change, name, &mut usn)?;
    Ok(Posted {
        first: next.first,
        last: next.last,
        usn,
    })
}

// Stores the journal's positions after a post. The volume record is shared: it is stored last, and only by an accepted post, which alone
// moves the end.
fn move_journal(v: &mut Volume, posted: Posted)
    ensures { v.new ≡ moved v.old posted }
{
    if posted.last != v.last {
        v.first = posted.first;
        v.last = posted.last;
    }
}

// Sets the reparse point of a file, whose data goes to the start of `store`: posts the change, and stores what was given if the post is not
// refused.
pub fn set_reparse_point(
    v: &mut Volume,
    ring: &mut [u8],
    f: &mut FileRecord,
    store: &mut [u8],
    c: Change,
    name: &[u8],
    input: &[u8],
) -> Result<(), Status>
    ensures { Updates Update.Set (record { volume = v.old; ring = ring.old }) (record { file = f.old; store = store.old }) (record { change = c; name = name.now }) input.now result v.new ring.new f.new store.new }
{
    judge_update(Update::Set, *v, *f, store.len(), input)?;
    let posted = post_point(*v, ring, f.usn, c, name)?;
    let tag = tag_given(input);
    le::copy(store, &input[header_length(tag)..]);
    f.usn = posted.usn;
    f.tag = tag;
    f.guid = guid_given(input);
    f.length = length_given(input);
    move_journal(v, posted);
    Ok(())
}

// Deletes the reparse point of a file, and posts the change. The store stays as it is.
pub fn delete_reparse_point(
    v: &mut Volume,
    ring: &mut [u8],
    f: &mut FileRecord,
    store: &[u8],
    c: Change,
    name: &[u8],
    input: &[u8],
) -> Result<(), Status>
    ensures { Updates Update.Delete (record { volume = v.old; ring = ring.old }) (record { file = f.old; store = store.now }) (record { change = c; name = name.now }) input.now result v.new ring.new f.new store.now }
{
    judge_update(Update::Delete, *v, *f, store.len(), input)?;
    let posted = post_point(*v, ring, f.usn, c, name)?;
    f.usn = posted.usn;
    f.tag = 0;
    f.guid = [0u8; 16];
    f.length = 0;
    move_journal(v, posted);
    Ok(())
}
