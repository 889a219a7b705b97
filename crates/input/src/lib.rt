// What a program reads.
#![tactic(auto)]

ghost use Rattle.std.specs.Prelude.{◌≡◌, ◌≤◌, length, take, IfOk, IfSome};

use std::io;
use std::io::Read;

// What a reader gives, up to 8,193 bytes: one more than a plan text may have, so that a longer text is still too long. It is written over
// the front of the room, so that reading wants no memory.
pub fn read_text<R: Read + Drop>(reader: R, room: &mut [u8; 8193]) -> io::Result<&[u8]>
    ensures front { IfOk result (λ text. IfSome (R.remaining reader) (λ bytes. text.now ≡ take 8193 bytes)) }
    ensures few { IfOk result (λ text. length text.now ≤ 8193) }
{
    let mut reader = reader;
    let mut len = 0;
    while len < 8193 {
        match reader.read(&mut room[len..])? {
            0 => return Ok(&room[..len]),
            n => len += n,
        }
    }
    Ok(&room[..len])
}

#[cfg(test)]
mod tests {
    use super::*;
    use std::test::Fail;

    #[test]
    fn text_is_read_whole(rt: HostRuntime) -> Result<(), Fail> {
        let bytes = b"jobs 1\nbounds 0\n".as_slice();
        let mut room = [0u8; 8193];
        let text = read_text(bytes, &mut room)?;
        assert_eq!(rt; text, bytes);
        Ok(())
    }
}
