// Lists a journal reply from standard input.
#![tactic(auto)]

fn main(rt: HostRuntime) {
    let mut source = rt.reader();
    list_input::list(&rt, &mut source);
}
