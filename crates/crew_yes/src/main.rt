// The program of crate crew again, run on a yes: a crate runs its program on one list of arguments, so this main is a copy.
#![tactic(auto)]

use crew_text::program::serve;
use input::read_text;
use std::{env, io};

fn main(rt: HostRuntime) -> io::Result<()> {
    // Read before the arguments are: where neither can be, it is the text that is told of.
    let mut room = [0u8; 8193];
    let text = read_text(rt.stdin(), &mut room)?;
    let words: Vec<String> = env::args(&rt)?.skip(1).collect(rt.alloc())?;
    serve(
        rt.alloc(),
        text,
        words.as_slice(),
        &mut rt.stdout(),
        &mut rt.stderr(),
    )
}
