// The reader, tried on a text for each fault of a file.
#![tactic(auto)]

#[cfg(test)]
mod tests {
    use book::keeping::Book;
    use format::parts::{Fault, FileFault, NamePlace, Reason};
    use reader::place::Unread;
    use reader::reading::read;
    use std::alloc::Global;
    use std::test::Fail;

    // Whether a text gives this fault of the file, on this line, at this byte.
    fn gives(
        heap: Global,
        text: &[u8],
        room: usize,
        what: FileFault,
        line: usize,
        byte: usize,
    ) -> Result<bool, Fail> {
        let mut book = Book::new(heap)?;
        let mut names = [NamePlace::default(); 99];
        match read(heap, text, &mut book, &mut names[..room.min(99)]) {
            Err(Unread::Fault(fault)) => {
                let reason = Reason::File(what);
                Ok(fault == Fault { reason, line, byte })
            }
            _ => Ok(false),
        }
    }

    #[test]
    fn lines_are_judged(rt: HostRuntime) -> Result<(), Fail> {
        let heap = rt.alloc();
        assert!(rt; gives(heap, &[120u8; 8193], 99, FileFault::TooLong, 0, 0)?);
        assert!(rt; gives(heap, b"jobs 1\ncheck wet", 99, FileFault::Unfinished, 2, 16)?);
        assert!(rt; gives(heap, b"jobs 1 1\n", 99, FileFault::WrongLine, 1, 0)?);
        assert!(rt; gives(heap, b"jobs 0\nbounds 0\nx", 99, FileFault::Trailing, 3, 16)?);
        assert!(rt; gives(heap, b"jobs 1\n", 0, FileFault::NamesShort, 1, 0)?);
        Ok(())
    }

    #[test]
    fn words_are_judged(rt: HostRuntime) -> Result<(), Fail> {
        let heap = rt.alloc();
        assert!(rt; gives(heap, b"jobs 01\n", 99, FileFault::NotANumber, 1, 5)?);
        assert!(rt;
            gives(
                heap,
                b"jobs 1\njob a  b\nbounds 0\n",
                99,
                FileFault::BadName,
                2,
                13
            )?
        );
        assert!(rt;
            gives(
                heap,
                b"jobs 1\njob start\nbounds 0\n",
                99,
                FileFault::NameTaken,
                2,
                11
            )?
        );
        assert!(rt;
            gives(
                heap,
                b"jobs 1\njob loop\nbounds 0\n",
                99,
                FileFault::NameReserved,
                2,
                11
            )?
        );
        assert!(rt;
            gives(
                heap,
                b"jobs 1\njob a +wet\nbounds 0\n",
                99,
                FileFault::UnknownName,
                2,
                13
            )?
        );
        Ok(())
    }
}
