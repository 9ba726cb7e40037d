// Keys put, found, expired and removed, and a state damaged in each way: each line is a claim, with how many of its steps agree.
// make.py writes the input.
#![tactic(auto)]

mod acts;
mod asks;
mod damage;
mod judge;
mod steps;

use acts::Agent;
use judge::judge;
use report::input::read_full;
use report::sections::records;
use std::io;

// Each section begins with a fresh state.
fn main(rt: HostRuntime) -> io::Result<()> {
    let mut input = [0; 65536];
    let n = read_full(&mut rt.reader(), &mut input)?;
    if n == input.len() {
        return println!(rt; "the input is too long");
    }
    let s = &input[..n];
    let mut agent = Agent::fresh();
    records(&rt, s, |x| {
        if x.ran == 0 {
            agent = Agent::fresh();
        }
        judge(s, x.next, &mut agent)
    })
}
