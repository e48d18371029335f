// Reparse points: what every control on one asks first, and FSCTL_GET_REPARSE_POINT, a file's reparse tag and data.
#![tactic(auto)]

ghost use Rattle.std.specs.Prelude.{◌≡◌, ◌++◌, ◌+◌, ◌-◌, ◌≤◌, length, take, drop};
ghost use Rattle.status.specs.declared.Status.TheVariants.{FileCorruptError};
ghost use Rattle.status.specs.Check.{unless, else, judged};
ghost use Rattle.status.specs.Reply.{Replied, told};
ghost use Rattle.reparse_point.specs.Reparse.{most_data, header_length, reparse_header, points_check, good_point, reparse_check, reparse_reply};

use file_record::FileRecord;
use status::{Answer, Status};
use volume::Volume;

// The least store that a file's data may be lent in: it has room for any data.
pub const STORE: usize = 16376;

// The most data that goes with a tag.
#[tactic(auto, unfolding(crate::specs::Reparse::most_data))]
fn most_data(tag: u32) -> u64
    ensures { result ≡ most_data tag }
{
    if tag == 0 {
        return 0;
    }
    if 0x8000_0000 <= tag {
        return 16376;
    }
    16360
}

// The length of the header that a tag has.
#[tactic(auto, unfolding(crate::specs::Reparse::header_length))]
pub fn header_length(tag: u32) -> usize
    ensures { (result ≡ header_length tag) × (result ≤ 24) }
{
    if 0x8000_0000 <= tag { 8 } else { 24 }
}

// Whether a file record is right, with a lent store of n bytes.
#[tactic(auto, unfolding(crate::specs::Reparse::good_point))]
fn good_point(f: FileRecord, n: usize) -> bool
    ensures { result ≡ good_point f n }
{
    if n < STORE {
        return false;
    }
    f.length <= most_data(f.tag)
}

// Judges what every control on a reparse point asks first: the volume's support, and the file record with a store of n bytes.
pub fn judge_point(v: Volume, f: FileRecord, n: usize) -> Result<(), Status>
    ensures { result ≡ judged (else (points_check v) (unless (good_point f n) FileCorruptError)) }
{
    if v.reparse == 0 {
        return Err(Status::InvalidDeviceRequest);
    }
    if v.points == 0 {
        return Err(Status::VolumeNotUpgraded);
    }
    if !good_point(f, n) {
        return Err(Status::FileCorruptError);
    }
    Ok(())
}

// Judges the call, in the order of the checks.
#[tactic(auto, unfolding(crate::specs::Reparse::reparse_check))]
fn judge_reparse(v: Volume, f: FileRecord, n: usize, room: usize) -> Result<(), Status>
    ensures { result ≡ judged (reparse_check v f n room) }
{
    judge_point(v, f, n)?;
    if f.tag == 0 {
        return Err(Status::NotAReparsePoint);
    }
    if room < header_length(f.tag) {
        return Err(Status::BufferTooSmall);
    }
    Ok(())
}

// Writes the header of a tag with n bytes of data.
#[tactic(auto, using(crate::proofs::Writing::puts))]
fn put_header(out: &mut [u8], tag: u32, guid: &[u8], n: usize)
    requires { (header_length tag ≤ length out.old) × (length guid.now ≡ 16) × (n ≤ 16376) }
    ensures { out.new ≡ reparse_header tag guid.now n ++ drop (header_length tag) out.old }
{
    le::put(out, 4, tag as u64);
    le::put_two(&mut out[4..], 2, n as u64, 0);
    if 0x8000_0000 <= tag {
        return;
    }
    le::copy(&mut out[8..], guid);
}

// Writes the header and as much data as fits.
fn put_reparse(out: &mut [u8], tag: u32, guid: &[u8], bytes: &[u8]) -> usize
    requires { (header_length tag ≤ length out.old) × (length guid.now ≡ 16) × (length bytes.now ≤ 16376) }
    ensures { (result ≡ header_length tag + length (take (length out.old - header_length tag) bytes.now)) × (out.new ≡ (reparse_header tag guid.now (length bytes.now) ++ take (length out.old - header_length tag) bytes.now) ++ drop result out.old) }
{
    let at = header_length(tag);
    let room = out.len() - at;
    let n = room.min(bytes.len());
    put_header(out, tag, guid, bytes.len());
    le::copy(&mut out[at..], &bytes[0..n]);
    at + n
}

// The point's header and as much of its data as has room.
#[tactic(auto, unfolding(crate::specs::Reparse::reparse_reply, crate::specs::Reparse::reparse_check))]
fn reply(v: Volume, f: FileRecord, store: &[u8], output: &mut [u8]) -> Result<usize, Status>
    ensures { Replied (reparse_reply v f store.now (length output.old)) (told result) output.old output.new }
{
    judge_reparse(v, f, store.len(), output.len())?;
    let guid = f.guid;
    let n = f.length as usize;
    Ok(put_reparse(output, f.tag, &guid, &store[..n]))
}

// Gets the reparse point of a file, whose data is at the start of `store`.
pub fn get_reparse_point(v: Volume, f: FileRecord, store: &[u8], output: &mut [u8]) -> Answer
    ensures { Replied (reparse_reply v f store.now (length output.old)) result output.old output.new }
{
    Answer::from(reply(v, f, store, output))
}
