// Reads a reel from standard input, and prints a line for each of its pictures.
#![tactic(auto)]

use std::io;

fn main(rt: HostRuntime) -> io::Result<()> {
    // One byte more than the longest reel, to notice a reel that is longer.
    let mut reel = [0u8; entries::MAX_REEL_BYTES + 1];
    let length = reel_input::read_all(&mut rt.stdin(), &mut reel)?;
    let mut text = [0u8; entries::REPORT_BYTES];
    let printed = entries::report(&reel[..length], &mut text);
    rt.write_all(&text[..printed])
}
