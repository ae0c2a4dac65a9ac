// Prints whether the record on standard input is accepted, or the number of its refusal (SPECIFICATION.md, 14.2).
#![tactic(auto)]

use std::io;

// One byte more than a record may have: a longer input is refused by as many of its bytes.
const BUFFER: usize = 65536;

fn main(rt: HostRuntime) -> io::Result<()> {
    let mut buffer = [0; BUFFER];
    let got = input::read_full(&mut rt.stdin(), &mut buffer)?;
    match record::reading::read(&buffer[..got]) {
        Ok(_) => println!(rt; "accepted"),
        Err(refusal) => println!(rt; "refused {refusal}"),
    }
}
