// Answers of the unchanged Rust agent, replayed. make.py writes the input from them, and says how they were got.
#![tactic(auto)]

use std::io;

fn main(rt: HostRuntime) -> io::Result<()> {
    calls::run(&rt)
}
