// Calls read from standard input, made one after another on one state and store, each outcome written as a line.
//
// The input is a row of records, each a byte and what follows it:
//   01  a call: clock reading (8 bytes), gate, check, confirmation and signature (a byte each: 1 no, 2 yes, else none lent), the insertion
//       numbers of confirmation and signature (8 bytes each), and the lengths of reply buffer, payload and signature (4 bytes each);
//       then payload and signature
//   02  a fresh state
//   23  a text: its length (4 bytes), then its bytes, written as a line
// Numbers are big-endian. A record that is cut, unknown or beyond the limits ends the run with the line `malformed`.
#![tactic(auto)]

mod head;
mod say;

use byvalue::call;
use flat::answers_of;
use head::{Broken, fill, read_head, read_length};
use requests::Asked;
use say::{say_line, say_outcome};
use std::io;
use std::io::Read;
use table::bytes::wipe;
use table::{State, fresh};
use wire::limits;

// A state and its store, and the rooms of a call. One byte more than the limits has room, so that refusals 4 and 5 can be seen.
#[derive(Drop)]
struct Agent {
    state: State,
    store: [u8; limits::STORE_SIZE],
    payload: [u8; limits::PAYLOAD_LIMIT + 1],
    signature: [u8; limits::SIGNATURE_LIMIT + 1],
    reply: [u8; limits::REPLY_ROOM],
}

impl Agent {
    fn fresh() -> Agent {
        Agent {
            state: fresh(),
            store: [0; limits::STORE_SIZE],
            payload: [0; limits::PAYLOAD_LIMIT + 1],
            signature: [0; limits::SIGNATURE_LIMIT + 1],
            reply: [0; limits::REPLY_ROOM],
        }
    }

    fn renew(&mut self) {
        self.state = fresh();
        wipe(&mut self.store);
    }

    // The call is read and made, and its outcome written.
    fn serve(&mut self, rt: &impl Print, input: &mut impl Read) -> Result<(), Broken> {
        let head = read_head(input)?;
        let payload = self
            .payload
            .get_mut(..head.payload)
            .ok_or(Broken::Malformed)?;
        let signature = self
            .signature
            .get_mut(..head.signature)
            .ok_or(Broken::Malformed)?;
        let reply = self.reply.get_mut(..head.room).ok_or(Broken::Malformed)?;
        fill(input, payload)?;
        fill(input, signature)?;
        let asked = Asked {
            payload,
            reading: head.reading,
            answers: answers_of(head.answers),
            signature,
        };
        let done = call(self.state, &mut self.store, asked, reply);
        self.state = done.state;
        say_outcome(rt, done.outcome, reply)?;
        Ok(())
    }

    fn copy_text(&mut self, rt: &impl Print, input: &mut impl Read) -> Result<(), Broken> {
        let length = read_length(input)?;
        let text = self.payload.get_mut(..length).ok_or(Broken::Malformed)?;
        fill(input, text)?;
        say_line(rt, text)?;
        Ok(())
    }
}

// All records up to the end of the input, from a fresh state.
fn records(rt: &impl Print, input: &mut impl Read) -> Result<(), Broken> {
    let mut agent = Agent::fresh();
    let mut kind = [0];
    // Counted, since a loop must end, and how much an input holds no measure can say.
    for _ in 0..u64::MAX {
        if input.read(&mut kind)? == 0 {
            return Ok(());
        }
        match kind[0] {
            1 => agent.serve(rt, input)?,
            2 => agent.renew(),
            35 => agent.copy_text(rt, input)?,
            _ => return Err(Broken::Malformed),
        }
    }
    Ok(())
}

// Answers nothing, and is lent only the streams: what it writes is held to the stored output of the programs. Only a failed read or write fails.
pub fn run(rt: &(impl Input + Print)) -> io::Result<()> {
    match records(rt, &mut rt.reader()) {
        Ok(()) => Ok(()),
        Err(Broken::Malformed) => println!(rt; "malformed"),
        Err(Broken::Failed(e)) => Err(e),
    }
}
