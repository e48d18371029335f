// An update of three files, followed through the journal by a service that is cut off in the middle of it.
#![tactic(auto)]

use case_rows::print;
use update_steps::{CHANGES, ID, START, created, post_changes, read_on, read_once};

// The update with the reader cut off after its first reply. Before it returns, the server posts changes up to number `to`.
fn follow(rt: &impl Print, ring: &mut [u8], to: usize) {
    print(rt, b"-- the update begins\n");
    let mut v = created(ring.len());
    post_changes(rt, &mut v, ring, 0, 4);
    print(rt, b"-- the service reads, and is cut off\n");
    let at = read_once(rt, v, ring, ID, START);
    print(rt, b"-- the server goes on\n");
    post_changes(rt, &mut v, ring, 4, to);
    print(rt, b"-- the service returns with its last position\n");
    read_on(rt, v, ring, ID, at);
}

fn main(rt: HostRuntime) {
    print(&rt, b"A ring of 4,096 bytes\n");
    let mut large = [0u8; 4096];
    follow(&rt, &mut large, CHANGES);
    print(&rt, b"A ring of 1,024 bytes, and a second update\n");
    let mut small = [0u8; 1024];
    follow(&rt, &mut small, 2 * CHANGES);
}
