// The input of the programs, read into a room.
ghost use Rattle.std.specs.Io.{ReadsAtMost};

use std::io;
use std::io::Read;

// Reads until the room is full or the input ends; how many bytes then stand at the front of the room. Only a failed read fails, and the room then
// holds what came before it.
pub fn read_full<I: Read>(input: &mut I, room: &mut [u8]) -> io::Result<usize>
    ensures { ReadsAtMost result room.new }
{
    let mut done = 0;
    // By what each read gives: there is nothing to go over.
    while done < room.len() {
        let n = input.read(&mut room[done..])?;
        if n == 0 {
            break;
        }
        done += n;
    }
    Ok(done)
}
