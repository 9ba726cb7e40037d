// What is read of a record before its bytes: a length, or the head of a call.
use flat::FlatAnswers;
use rule::Millis;
use std::io;
use std::io::{ErrorKind, Read};

// Why a run ends before its input does.
#[derive(Clone, Copy)]
pub enum Broken {
    Malformed,
    Failed(io::Error),
}

impl From<io::Error> for Broken {
    fn from(e: io::Error) -> Broken {
        Broken::Failed(e)
    }
}

impl Broken {
    // A record that is cut is malformed.
    fn of_read(e: io::Error) -> Broken {
        match e.kind() {
            ErrorKind::UnexpectedEof => Broken::Malformed,
            _ => Broken::Failed(e),
        }
    }
}

// All of the room is filled.
pub(crate) fn fill(input: &mut impl Read, room: &mut [u8]) -> Result<(), Broken> {
    input.read_exact(room).map_err(Broken::of_read)
}

#[derive(Clone, Copy)]
pub struct Head {
    pub reading: Millis,
    pub answers: FlatAnswers,
    pub room: usize,
    pub payload: usize,
    pub signature: usize,
}

fn read_bytes<const N: usize>(input: &mut impl Read) -> Result<[u8; N], Broken> {
    let mut bytes = [0; N];
    fill(input, &mut bytes)?;
    Ok(bytes)
}

fn read_number(input: &mut impl Read) -> Result<u64, Broken> {
    Ok(u64::from_be_bytes(read_bytes(input)?))
}

pub(crate) fn read_length(input: &mut impl Read) -> Result<usize, Broken> {
    Ok(u32::from_be_bytes(read_bytes(input)?) as usize)
}

// One read takes the head whole; its numbers are read out of the bytes.
pub(crate) fn read_head(input: &mut impl Read) -> Result<Head, Broken> {
    let bytes: [u8; 40] = read_bytes(input)?;
    let input = &mut &bytes[..];
    let count = read_number(input)?;
    let [gate, check, confirmation, signature] = read_bytes::<4>(input)?;
    let answers = FlatAnswers {
        gate,
        check,
        confirmation,
        signature,
        confirmation_number: read_number(input)?,
        signature_number: read_number(input)?,
    };
    Ok(Head {
        reading: Millis { count },
        answers,
        room: read_length(input)?,
        payload: read_length(input)?,
        signature: read_length(input)?,
    })
}
