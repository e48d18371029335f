// Lists each file that its arguments name, under a line with the name.
#![tactic(auto)]

use program_io::{argument, argument_count, fail, open};
use std::env::Env;
use std::rt::Files;

fn list_file(rt: &(impl Files + Print + Eprint), path: &[u8]) {
    let mut file = match open(rt, path) {
        Ok(file) => file,
        Err(error) => {
            fail(rt, path, error);
            return;
        }
    };
    let _ = rt.write_all(b"# ");
    let _ = rt.write_all(path);
    let _ = rt.write_all(b"\n");
    list_input::list(rt, &mut file);
}

fn list_argument(rt: &(impl Env + Files + Print + Eprint), i: usize) {
    let mut path = [0u8; 4096];
    let n = argument(rt, i, &mut path);
    list_file(rt, &path[..n]);
}

fn main(rt: HostRuntime) {
    for i in 1..argument_count(&rt) {
        list_argument(&rt, i);
    }
}
