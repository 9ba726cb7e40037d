// Derived from keys/agent/server.rs of russh 0.65.0 (Apache-2.0), and changed: see NOTICE.
// The constraints of an add request.
ghost use Rattle.std.specs.Prelude.{◌≡◌, None, false, drop};
ghost use Rattle.keys.specs.Constraints.{walk_of};

use wire::read::Cursor;
use wire::{Seconds, msg};

// What the walk yields: the four ends that 01 names of its loop. A fault has its place.
#[derive(Clone, Copy)]
pub enum Walk {
    Done {
        lifetime: Option<Seconds>,
        confirm: bool,
    },
    Duplicate(usize),
    Unknown(usize),
    Cut(usize),
}

// The walk goes to the end of the bytes, and stops at the first byte that settles it.
pub fn constraints(s: &[u8], from: usize) -> Walk
    ensures { result ≡ walk_of from (drop from s.now) None false }
{
    let mut at = from;
    let mut lifetime = None;
    let mut confirm = false;
    loop {
        if s.len() <= at {
            break Walk::Done { lifetime, confirm };
        }
        match s[at] {
            msg::CONSTRAIN_LIFETIME => {
                if lifetime.is_some() {
                    break Walk::Duplicate(at);
                }
                let seconds = Cursor { at: at + 1 };
                match seconds.number(s) {
                    Ok((count, next)) => {
                        lifetime = Some(Seconds { count });
                        at = next.at;
                    }
                    Err(fault) => break Walk::Cut(fault.at),
                }
            }
            msg::CONSTRAIN_CONFIRM => {
                confirm = true;
                at += 1;
            }
            _ => break Walk::Unknown(at),
        }
    }
}
