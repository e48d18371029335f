// FSCTL_QUERY_FILE_REGIONS: which part of a file's range holds valid data.
#![tactic(auto)]

ghost use Rattle.std.specs.Prelude.{◌≡◌, true, ◌||◌, ◌++◌, ◌≤◌, min, leb, eqb, length, drop, None};
ghost use Rattle.status.specs.Check.{judged};
ghost use Rattle.status.specs.Reply.{Replied};
ghost use Rattle.file_regions.specs.Regions.{asked_of, good_sizes, asked_check, regions_check, first_region, second_due, second_region, is_outside, regions_header, region_bytes, regions_answer, regions_reply};

use file_record::FileRecord;
use status::{Answer, Status};
use volume::Volume;

// What a caller asks for.
#[derive(Clone, Copy, Debug, PartialEq, Eq)]
pub struct Asked {
    pub offset: u64,
    pub length: u64,
    pub usage: u32,
}

// One region of the reply.
#[derive(Clone, Copy, Debug, PartialEq, Eq)]
pub struct Region {
    pub offset: u64,
    pub length: u64,
    pub usage: u32,
}

// What the input asks for.
#[tactic(auto, unfolding(crate::specs::Regions::asked_of))]
fn read_asked(input: &[u8]) -> Asked
    requires { eqb (length input.now) 0 || leb 24 (length input.now) ≡ true }
    ensures { result ≡ asked_of input.now }
{
    if input.is_empty() {
        return Asked {
            offset: 0,
            length: 0x7FFF_FFFF_FFFF_FFFF,
            usage: 1,
        };
    }
    Asked {
        offset: le::get(input, 0, 8),
        length: le::get(input, 8, 8),
        usage: le::get(input, 16, 4) as u32,
    }
}

// Judges what is asked for.
#[tactic(auto, unfolding(crate::specs::Regions::asked_check))]
fn judge_asked(a: Asked) -> Result<(), Status>
    ensures { result ≡ judged (asked_check a) }
{
    if a.length == 0 {
        return Err(Status::InvalidParameter);
    }
    if 0x7FFF_FFFF_FFFF_FFFF < a.length {
        return Err(Status::InvalidParameter);
    }
    if 0x7FFF_FFFF_FFFF_FFFF - a.length < a.offset {
        return Err(Status::InvalidParameter);
    }
    if a.usage % 2 != 1 {
        return Err(Status::InvalidParameter);
    }
    Ok(())
}

// Whether the file record's sizes are right.
#[tactic(auto, unfolding(crate::specs::Regions::good_sizes))]
fn good_sizes(f: FileRecord) -> bool
    ensures { result ≡ good_sizes f }
{
    if f.eof < f.valid {
        return false;
    }
    f.eof < 0x8000_0000_0000_0000
}

// Judges the call, in the order of the checks.
#[tactic(auto, unfolding(crate::specs::Regions::regions_check))]
fn judge_regions(v: Volume, f: FileRecord, input: &[u8], room: usize) -> Result<(), Status>
    ensures { result ≡ judged (regions_check v f input.now room) }
{
    if v.regions == 0 {
        return Err(Status::InvalidDeviceRequest);
    }
    if !good_sizes(f) {
        return Err(Status::FileCorruptError);
    }
    if !input.is_empty() && input.len() < 24 {
        return Err(Status::BufferTooSmall);
    }
    judge_asked(read_asked(input))?;
    if room < 40 {
        return Err(Status::BufferTooSmall);
    }
    Ok(())
}

// Whether an offset lies behind the file, or at the end of one that isn't empty.
#[tactic(auto, unfolding(crate::specs::Regions::is_outside))]
fn is_outside(eof: u64, offset: u64) -> bool
    ensures { result ≡ is_outside eof offset }
{
    if eof < offset {
        return true;
    }
    if offset != eof {
        return false;
    }
    0 < eof
}

// The first region, from the offset on.
#[tactic(auto, unfolding(crate::specs::Regions::first_region))]
fn first_region(eof: u64, vdl: u64, a: Asked) -> Region
    requires { a.offset ≤ eof }
    ensures { result ≡ first_region eof vdl a }
{
    if vdl <= a.offset {
        return Region {
            offset: a.offset,
            length: a.length.min(eof - a.offset),
            usage: 0,
        };
    }
    Region {
        offset: a.offset,
        length: a.length.min(vdl - a.offset),
        usage: a.usage,
    }
}

// Whether a second region is due behind the valid data, where the first is `first`.
#[tactic(auto, unfolding(crate::specs::Regions::second_due, crate::specs::Regions::first_region))]
fn second_due(eof: u64, vdl: u64, a: Asked, first: Region) -> bool
    requires { first ≡ first_region eof vdl a }
    ensures { result ≡ second_due eof vdl a }
{
    if vdl <= a.offset {
        return false;
    }
    if eof <= vdl {
        return false;
    }
    first.length < a.length
}

// The second region.
#[tactic(auto, unfolding(crate::specs::Regions::second_region, crate::specs::Regions::second_due, crate::specs::Regions::first_region))]
fn second_region(eof: u64, vdl: u64, a: Asked, first: Region) -> Region
    requires { (first ≡ first_region eof vdl a) × (second_due eof vdl a ≡ true) }
    ensures { result ≡ second_region eof vdl a }
{
    Region {
        offset: vdl,
        length: (a.length - first.length).min(eof - vdl),
        usage: 0,
    }
}

// Writes Flags, both counts and Reserved.
#[tactic(auto, using(crate::proofs::Writing::puts))]
fn put_header(out: &mut [u8], total: u64, given: u64)
    requires { 16 ≤ length out.old }
    ensures { out.new ≡ regions_header total given ++ drop 16 out.old }
{
    le::put_two(out, 4, 0, total);
    le::put_two(&mut out[8..], 4, given, 0);
}

// Writes one region.
#[tactic(auto, using(crate::proofs::Writing::puts))]
fn put_region(out: &mut [u8], r: Region)
    requires { 24 ≤ length out.old }
    ensures { out.new ≡ region_bytes r ++ drop 24 out.old }
{
    le::put_two(out, 8, r.offset, r.length);
    le::put_two(&mut out[16..], 4, r.usage as u64, 0);
}

// Writes the front of a reply: the header and the first region.
#[tactic(auto, using(crate::proofs::Writing::puts))]
fn put_front(out: &mut [u8], total: u64, given: u64, first: Region)
    requires { 40 ≤ length out.old }
    ensures { out.new ≡ (regions_header total given ++ region_bytes first) ++ drop 40 out.old }
{
    put_header(out, total, given);
    put_region(&mut out[16..], first);
}

// Replies to a call that has passed its checks.
#[tactic(auto, unfolding(crate::specs::Regions::is_outside, crate::specs::Regions::regions_answer))]
fn reply_regions(f: FileRecord, a: Asked, output: &mut [u8]) -> Answer
    requires { (good_sizes f ≡ true) × (asked_check a ≡ None) × (40 ≤ length output.old) }
    ensures { Replied (regions_answer f a (length output.old)) result output.old output.new }
{
    if is_outside(f.eof, a.offset) {
        return Answer::from(Ok(0));
    }
    let first = first_region(f.eof, f.valid, a);
    if !second_due(f.eof, f.valid, a, first) {
        put_front(output, 1, 1, first);
        return Answer::from(Ok(40));
    }
    let second = second_region(f.eof, f.valid, a, first);
    if output.len() < 64 {
        put_front(output, 2, 1, first);
        return Answer {
            status: Status::BufferOverflow,
            count: 40,
        };
    }
    put_front(output, 2, 2, first);
    put_region(&mut output[40..], second);
    Answer::from(Ok(64))
}

// Queries the regions of a file.
#[tactic(auto, unfolding(crate::specs::Regions::regions_check, crate::specs::Regions::regions_reply))]
pub fn query_file_regions(v: Volume, f: FileRecord, input: &[u8], output: &mut [u8]) -> Answer
    ensures { Replied (regions_reply v f input.now (length output.old)) result output.old output.new }
{
    match judge_regions(v, f, input, output.len()) {
        Ok(()) => reply_regions(f, read_asked(input), output),
        Err(status) => Answer::from(Err(status)),
    }
}
