// What is written: one line for each outcome and text.
ghost use Rattle.std.specs.Prelude.{◌≤◌, ◌*◌, length};

use flat::flat_of;
use requests::Outcome;
use std::io;
use wire::limits;
use wire::read::cut;

// The word, two digits for each byte of the longest reply, and the end of the line.
const LINE: usize = 6 + 2 * limits::REPLY_ROOM + 1;

// A digit of base 16, in capitals.
fn hex_digit(n: u8) -> u8
    requires { n ≤ 15 }
{
    if n < 10 { b'0' + n } else { b'A' + (n - 10) }
}

// Two digits for each byte; whoever lends them lends enough.
fn put_digits(bytes: &[u8], digits: &mut [u8])
    requires { 2 * length bytes.now ≤ length digits.old }
{
    for (i, b) in bytes.iter().enumerate() {
        digits[2 * i] = hex_digit(*b / 16);
        digits[2 * i + 1] = hex_digit(*b % 16);
    }
}

// A function of its own, so that no proof writes out so many bytes.
fn blank_line() -> [u8; LINE] {
    [0; LINE]
}

// The line is written at once. No reply is longer than its room.
fn say_reply(rt: &impl Print, reply: &[u8]) -> io::Result<()> {
    if limits::REPLY_ROOM < reply.len() {
        return Ok(());
    }
    let mut line = blank_line();
    let end = 6 + 2 * reply.len();
    line[..6].copy_from_slice(b"reply ");
    put_digits(reply, &mut line[6..end]);
    line[end] = b'\n';
    rt.write_all(&line[..end + 1])
}

pub(crate) fn say_line(rt: &impl Print, text: &[u8]) -> io::Result<()> {
    rt.write_all(text)?;
    rt.write_all(b"\n")
}

// The outcome's name, and its values behind it.
pub(crate) fn say_outcome(rt: &impl Print, outcome: Outcome, reply: &[u8]) -> io::Result<()> {
    match outcome {
        Outcome::Refused { number } => println!(rt; "refused {number}"),
        Outcome::Gate { class } => println!(rt; "ask gate {class}"),
        Outcome::Check { from, to } => println!(rt; "ask check {from} {to}"),
        Outcome::Confirm { number } => println!(rt; "ask confirm {number}"),
        Outcome::Sign {
            number,
            from,
            to,
            ..
        } => {
            let hash = flat_of(outcome).hash;
            println!(rt; "ask sign {number} {from} {to} {hash}")
        }
        Outcome::Reply { len } => say_reply(rt, cut(reply, 0, len)),
        Outcome::Close => println!(rt; "close"),
    }
}
