// What the programs that play an update share: an update of three files, and a service that follows it through the journal. No
// contract can speak of what the functions print.
#![tactic(auto)]

ghost use Rattle.std.specs.Prelude.{◌≡◌, ◌++◌, ◌≤◌, length, drop};
ghost use Rattle.status.specs.Reply.{Replied};
ghost use Rattle.volume.specs.Calls.{create_outcome};
ghost use Rattle.journal_post.specs.Posts.{after_post};
ghost use Rattle.update_steps.specs.Update.{idle_volume, posting, reason_at, change_at, updated};
ghost use Rattle.update_steps.specs.Service.{input_of, reply_from, read_to, reads_to};

use case_rows::{print, print_number};
use file_ids::id_of;
use journal_post::Change;
use status::{Answer, Status};
use volume::Volume;

// The journal's id.
pub const ID: u64 = 7;

// The position at which it is created: the volume had a journal before.
pub const START: u64 = 8000;

// The changes of an update, three for each file: it is created, written, closed.
pub const CHANGES: usize = 9;

// ---- The server.

// A volume record with no journal yet, at LastUsn `last`, for a ring of n bytes.
pub fn idle(n: usize, last: u64) -> Volume
    ensures { result ≡ idle_volume n last }
{
    Volume {
        usn: 0,
        regions: 0,
        reparse: 0,
        points: 0,
        journal: 1,
        state: 0,
        id: 0,
        first: 0,
        last,
        capacity: n as u64,
    }
}

// The volume record with a new journal on a ring of n bytes.
pub fn created(n: usize) -> Volume
    ensures { result ≡ (create_outcome (idle_volume n 8000) 7).volume }
{
    let mut v = idle(n, START);
    let _ = v.create(ID);
    v
}

// Posts a change and prints its Usn.
fn post(rt: &impl Print, v: &mut Volume, ring: &mut [u8], file: u64, reason: u32, name: &[u8])
    ensures { (record { volume = v.new; ring = ring.new }) ≡ after_post (record { volume = v.old; ring = ring.old }) (posting file reason name.now) }
{
    let c = Change {
        file: id_of(file),
        parent: id_of(5),
        time: 0,
        reason,
        source: 0,
        security: 0,
        attributes: 0x20,
    };
    let mut usn: u64 = 0;
    let _ = journal_post::post(v, ring, c, name, &mut usn);
    print(rt, b"posted");
    print_number(rt, usn);
    print(rt, b"\n");
}

// The Reason of change i of an update.
#[tactic(auto, using(crate::proofs::Posting::last))]
fn reason(i: usize) -> u32
    ensures { result ≡ reason_at i }
{
    let step = i % 3;
    match step {
        0 => 0x100,
        1 => 0x102,
        _ => 0x8000_0102,
    }
}

// Posts change i of an update.
#[tactic(auto, using(crate::proofs::Posting::last), unfolding(crate::specs::Update::code, crate::specs::Update::table, crate::specs::Update::limits))]
fn post_change(rt: &impl Print, v: &mut Volume, ring: &mut [u8], i: usize)
    ensures { (record { volume = v.new; ring = ring.new }) ≡ after_post (record { volume = v.old; ring = ring.old }) (change_at i) }
{
    let file = i / 3;
    match file {
        0 => post(rt, v, ring, 41, reason(i), b"c\0o\0d\0e\0"),
        1 => post(rt, v, ring, 42, reason(i), b"t\0a\0b\0l\0e\0"),
        _ => post(rt, v, ring, 43, reason(i), b"l\0i\0m\0i\0t\0s\0"),
    }
}

// Posts changes `from` to `to` of one update after the other.
#[tactic(auto, using(crate::proofs::Posting::updated_end))]
pub fn post_changes(rt: &impl Print, v: &mut Volume, ring: &mut [u8], from: usize, to: usize)
    ensures { (record { volume = v.new; ring = ring.new }) ≡ updated (record { volume = v.old; ring = ring.old }) from to }
{
    for i in from..to {
        post_change(rt, v, ring, i % CHANGES);
    }
}

// ---- The service.

// Writes the input of a read of journal `id` from `start` on, for the records whose Reason has a bit of `mask`.
fn put_input(out: &mut [u8], id: u64, start: u64, mask: u32)
    requires { 40 ≤ length out.old }
    ensures { out.new ≡ input_of id start mask ++ drop 40 out.old }
{
    le::put(out, 8, start);
    // the fields between the mask and the id are zero
    le::put(&mut out[8..], 24, mask as u64);
    le::put(&mut out[32..], 8, id);
}

// Reads the journal so.
pub fn read_from(
    v: Volume,
    ring: &[u8],
    id: u64,
    start: u64,
    mask: u32,
    output: &mut [u8],
) -> Answer
    ensures { Replied (reply_from v ring.now id start mask (length output.old)) result output.old output.new }
{
    let mut input = [0u8; 40];
    put_input(&mut input, id, start, mask);
    journal_read::read_journal(v, ring, &input, output)
}

// Reads once from `start` on with room for two records, prints the reply, and returns its position; a refusal is printed and
// leaves the reader where it is.
#[tactic(auto, using(crate::proofs::Reading::moves), unfolding(crate::specs::Service::read_to))]
pub fn read_once(rt: &impl Print, v: Volume, ring: &[u8], id: u64, start: u64) -> u64
    ensures { result ≡ read_to v ring.now id start }
{
    let mut output = [0u8; 160];
    let answer = read_from(v, ring, id, start, 0xFFFF_FFFF, &mut output);
    let count = answer.count;
    if count < 8 {
        print_refusal(rt, answer.status);
        return start;
    }
    let mut text = [0u8; 400];
    // there is room for the listing
    let n = usn_listing::list_reply(&mut text, &output[..count]).unwrap_or(0);
    print(rt, &text[..n]);
    le::get(&output, 0, 8)
}

fn print_refusal(rt: &impl Print, s: Status) {
    match s {
        Status::JournalEntryDeleted => print(rt, b"entries deleted\n"),
        Status::InvalidParameter => print(rt, b"invalid parameter\n"),
        _ => print(rt, b"refused\n"),
    }
}

// Reads from `start` on up to the journal's end, to a read that does not move the reader, or sixteen times, and returns the last
// position.
#[tactic(auto, using(crate::proofs::Reading::ended, crate::proofs::Reading::stuck, crate::proofs::Reading::turned, crate::proofs::Reading::used))]
pub fn read_on(rt: &impl Print, v: Volume, ring: &[u8], id: u64, start: u64) -> u64
    ensures { result ≡ reads_to 16 v ring.now id start }
{
    let mut at = start;
    for _ in 0..16usize {
        if at == v.last {
            print(rt, b"at the end\n");
            return at;
        }
        let next = read_once(rt, v, ring, id, at);
        if next == at {
            return at;
        }
        at = next;
    }
    at
}
