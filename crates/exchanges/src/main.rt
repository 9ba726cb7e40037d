// Runs outside vectors over client and readers, and writes how many agree. make.py writes the input, and says where its vectors come from.
#![tactic(auto)]

mod agree;
mod judge;
mod parts;

use judge::judge;
use report::input::read_full;
use report::sections::records;
use std::io;

// A function of its own, so that no proof writes out so many bytes.
fn space() -> [u8; 524288] {
    [0; 524288]
}

fn main(rt: HostRuntime) -> io::Result<()> {
    let mut input = space();
    let n = read_full(&mut rt.reader(), &mut input)?;
    if n == input.len() {
        return println!(rt; "the input is too long");
    }
    let s = &input[..n];
    records(&rt, s, |x| judge(s, x.next, x.kind, x.base.of(s)))
}
