// The short replies of a request: SUCCESS or FAILURE in five bytes. Refusal 1 has left room.
ghost use Rattle.std.specs.Prelude.{◌≡◌, ◌≤◌, length};
ghost use Rattle.requests.specs.Ends.{Answered};

use crate::Outcome;
use wire::msg;
use wire::write::{put_byte, put_number};

// The five bytes of a reply whose payload is the byte `kind` alone.
fn answer(kind: u8, reply: &mut [u8]) -> Outcome
    requires { 5 ≤ length reply.old }
    ensures { Answered kind reply.old result reply.new }
{
    let at = put_number(reply, 0, 1);
    let len = put_byte(reply, at, kind);
    Outcome::Reply { len }
}

pub fn failure(reply: &mut [u8]) -> Outcome
    requires { 5 ≤ length reply.old }
    ensures { Answered 5 reply.old result reply.new }
{
    answer(msg::FAILURE, reply)
}

pub fn success(reply: &mut [u8]) -> Outcome
    requires { 5 ≤ length reply.old }
    ensures { Answered 6 reply.old result reply.new }
{
    answer(msg::SUCCESS, reply)
}
