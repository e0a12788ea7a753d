// The program: "The program reads standard input." It prints what `session` decides for the bytes that it read.
#![tactic(auto)]

use printing::print_session;
use reading::read_full;
use session::{MOST_FILE, session_of_file};
use std::io;

// One byte more than a file may have, so that a file that is too long is seen.
const ROOM: usize = MOST_FILE + 1;

// Reads standard input to its end or to that room, and prints the session.
fn main(rt: HostRuntime) -> io::Result<()> {
    let mut file = [0u8; ROOM];
    let n = read_full(&mut rt.stdin(), &mut file)?;
    print_session(&mut rt.stdout(), session_of_file(&file[..n]))
}
