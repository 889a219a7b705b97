// A page: a text that is put together piece by piece.
#![tactic(auto)]

ghost use Rattle.std.specs.Prelude.{◌≡◌, [], ◌++◌, OnOk, OnErr, IfOk, IfSome};

use std::alloc::{AllocError, Global};
use std::fmt::Display;
use std::marker::Model;

// The bytes put so far.
#[derive(Drop)]
pub struct Page {
    bytes: Vec<u8>,
}

// A page is seen as its bytes.
impl Model for Page {
    ghost use Rattle.std.specs.Prelude.{ℕ, List};

    ghost Value = { List ℕ };

    ghost view = { λ page. page.bytes.items };
}

impl Page {
    // An empty page.
    pub fn new(heap: Global) -> Page
        ensures { result ≡ [] }
    {
        let bytes = Vec::new(heap);
        Page { bytes }
    }

    // An empty page with room for so many bytes.
    pub fn with_capacity(heap: Global, room: usize) -> Result<Page, AllocError>
        ensures { IfOk result (λ page. page ≡ []) }
    {
        let bytes = Vec::with_capacity(heap, room)?;
        Ok(Page { bytes })
    }

    // Puts bytes at the end.
    pub fn push(&mut self, bytes: &[u8]) -> Result<(), AllocError>
        ensures put { OnOk result (self.new ≡ self.old ++ bytes.now) }
        ensures kept { OnErr result (self.new ≡ self.old) }
    {
        self.bytes.extend_from_slice(bytes)
    }

    // Puts a text at the end, as `write!` does.
    pub fn write_fmt<D: Display + Drop>(&mut self, text: D) -> Result<(), AllocError>
        ensures put { OnOk result (IfSome (D.output text) (λ bytes. self.new ≡ self.old ++ bytes)) }
        ensures kept { OnErr result (self.new ≡ self.old) }
    {
        let text = text.to_string(*self.bytes.allocator())?;
        self.push(text.as_bytes())
    }

    // The bytes of the page.
    pub fn as_bytes(&self) -> &[u8]
        ensures { result.now ≡ self.now }
    {
        self.bytes.as_slice()
    }

    // The bytes, out of the page.
    pub fn into_bytes(self) -> Vec<u8>
        ensures { result.items ≡ self }
    {
        let Page { bytes } = self;
        bytes
    }
}

#[cfg(test)]
mod tests {
    use super::*;
    use std::test::Fail;

    #[test]
    fn pieces_stand_in_order(rt: HostRuntime) -> Result<(), Fail> {
        let mut page = Page::new(rt.alloc());
        page.push(b"start")?;
        assert_eq!(rt; page.as_bytes(), b"start".as_slice());
        page = Page::with_capacity(rt.alloc(), 4)?;
        let minute = -5i32;
        page.push(b"wet")?;
        write!(page, " {minute}\n")?;
        page.push(b"end")?;
        let text = b"wet -5\nend".as_slice();
        assert_eq!(rt; page.as_bytes(), text);
        assert_eq!(rt; page.into_bytes().as_slice(), text);
        Ok(())
    }
}
