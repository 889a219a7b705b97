// The program that leads a crew.
ghost use Rattle.std.specs.Prelude.{◌<◌, ◌⊎◌, length, codes, OnOk};
ghost use Rattle.std.specs.Io.KnownBytes.{Appends};

use crate::lead::lead;
use input::read_text;
use std::alloc::Global;
use std::io;
use std::io::{Read, Write};

// Reads a plan text, leads a crew through its run with the outcomes that the words say, and writes what the crew reads.
pub fn serve<R: Read + Drop, W: Write, E: Write>(
    heap: Global,
    input: R,
    words: &[String],
    out: &mut W,
    errors: &mut E,
) -> io::Result<()>
    ensures { OnOk result (4 < length words.now →
        Appends (W.contents out.old) (W.contents out.new) (codes "too many outcomes: a plan has at most 4 checks\n")
        ⊎ Appends (E.contents errors.old) (E.contents errors.new) (codes "no memory\n")) }
{
    let mut room = [0u8; 8193];
    let text = read_text(input, &mut room)?;
    match lead(heap, text, words) {
        Ok(page) => out.write_all(page.as_slice()),
        Err(_) => errors.write_all(b"no memory\n"),
    }
}

#[cfg(test)]
mod tests {
    use super::*;
    use std::test::Fail;

    #[test]
    fn crew_reads_its_run(rt: HostRuntime) -> Result<(), Fail> {
        let heap = rt.alloc();
        let text = b"jobs 0\nbounds 0\n".as_slice();
        let mut out = Vec::<u8>::new(heap);
        let mut errors = Vec::<u8>::new(heap);
        let none = Vec::<String>::new(heap);
        serve(heap, text, none.as_slice(), &mut out, &mut errors)?;
        assert_eq!(rt;
            out.as_slice(),
            b"minute 0 start\njobs 1 last minute 0\n".as_slice()
        );
        assert_eq!(rt; errors.as_slice(), b"".as_slice());
        Ok(())
    }
}
