// 01's examples of calls, and requests that cross, told in the customer's words. make.py writes the input, and says what must come out.
#![tactic(auto)]

use std::io;

fn main(rt: HostRuntime) -> io::Result<()> {
    calls::run(&rt)
}
