// Reads a plan text from standard input and writes its sheet to standard output.
#![tactic(auto)]

use input::read_text;
use sheet::answer::answer;
use std::io;
use std::io::Write;

fn main(rt: HostRuntime) -> io::Result<()> {
    let mut room = [0u8; 8193];
    let text = read_text(rt.stdin(), &mut room)?;
    // Kept as a buffer with its length: `answer` fills a slice of its caller's in part.
    let mut out = [0u8; 8192];
    match answer(rt.alloc(), text, &mut out) {
        Ok(length) => rt.stdout().write_all(&out[..length]),
        Err(_) => rt.stderr().write_all(b"no memory\n"),
    }
}
