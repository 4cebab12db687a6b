// The listing program.
#![tactic(auto)]

fn main(rt: HostRuntime) {
    // what refused was printed
    let _ = lister::run(&rt);
}
