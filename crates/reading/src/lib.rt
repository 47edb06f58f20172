// Reading into a lent buffer, for the programs.
#![tactic(auto)]

ghost use Rattle.std.specs.Prelude.{◌≤◌, length};

use std::io::Read;

// Reads until the room is full, the input ends or a read fails, and returns how many bytes stand at its start. No byte past the
// room is waited for.
pub fn fill<R: Read>(input: &mut R, room: &mut [u8]) -> usize
    ensures { result ≤ length room.new }
{
    let mut got = 0;
    // No `for`: a read brings as many bytes as it likes.
    while got < room.len() {
        let Ok(more) = input.read(&mut room[got..]) else {
            return got;
        };
        if more == 0 {
            return got;
        }
        got += more;
    }
    got
}
