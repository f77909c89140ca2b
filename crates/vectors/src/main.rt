// Prints every legal vector input for f_code 1 and then 2, with its vector.
#![tactic(auto)]

use std::io;

fn main(rt: HostRuntime) -> io::Result<()> {
    let mut text = [0u8; entries::VECTOR_LIST_BYTES];
    let printed = entries::list_vectors(&mut text);
    rt.write_all(&text[..printed])
}
