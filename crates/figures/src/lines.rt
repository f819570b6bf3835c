// Lines of text that grow: texts and decimal numbers, one behind another. Relies on texts for a number's digits, on std for memory. Leaves out who
// writes them out. Where there is no memory for a text or a number, the lines stay as they were.
ghost use Rattle.std.specs.Prelude.{◌≡◌, [], ◌++◌, is_ok, if◌then◌else◌};
ghost use Rattle.figures.specs.Texts.{decimal, signed_decimal};

use crate::texts;
use std::alloc::{AllocError, Global};

#[derive(Drop)]
pub struct Lines {
    pub bytes: Vec<u8>,
}

impl Lines {
    pub fn new(alloc: Global) -> Self
        ensures { result.bytes.items ≡ [] }
    {
        Lines {
            bytes: Vec::new(alloc),
        }
    }

    pub fn as_bytes(&self) -> &[u8]
        ensures { result.now ≡ self.now.bytes.items }
    {
        self.bytes.as_slice()
    }

    // All of a text.
    pub fn text(&mut self, text: &str) -> Result<(), AllocError>
        ensures { self.new.bytes.items ≡ (if is_ok result then self.old.bytes.items ++ text.now else self.old.bytes.items) }
    {
        self.bytes.extend_from_slice(text.as_bytes())
    }

    // A number's decimal digits.
    pub fn number(&mut self, v: usize) -> Result<(), AllocError>
        ensures { self.new.bytes.items ≡ (if is_ok result then self.old.bytes.items ++ decimal v else self.old.bytes.items) }
    {
        let mut digits = [0u8; 20];
        let end = texts::put_decimal(&mut digits, 0, v);
        self.bytes.extend_from_slice(&digits[..end])
    }

    // The same of a signed number.
    pub fn signed(&mut self, v: i64) -> Result<(), AllocError>
        ensures { self.new.bytes.items ≡ (if is_ok result then self.old.bytes.items ++ signed_decimal v else self.old.bytes.items) }
    {
        let mut digits = [0u8; 21];
        let end = texts::put_signed(&mut digits, 0, v);
        self.bytes.extend_from_slice(&digits[..end])
    }
}

#[cfg(test)]
mod tests {
    use super::*;
    use std::test::Fail;

    #[test]
    fn says_all(rt: HostRuntime) -> Result<(), Fail> {
        let mut lines = Lines::new(rt.alloc());
        lines.text("≤ ")?;
        lines.number(0)?;
        lines.text(" ")?;
        lines.number(usize::MAX)?;
        lines.text(" ")?;
        lines.signed(-1)?;
        lines.text("\n")?;
        lines.signed(i64::MIN)?;
        lines.text(" ")?;
        lines.signed(i64::MAX)?;
        let wanted = "≤ 0 18446744073709551615 -1\n-9223372036854775808 9223372036854775807";
        assert_eq!(rt; lines.as_bytes(), wanted.as_bytes());
        Ok(())
    }
}
