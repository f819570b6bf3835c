// A reader of a file's numbers, one behind another. Relies on crate files for a number. Leaves out what a number is for.
use files::numbers;

// What is left to read.
#[derive(Clone, Copy)]
pub struct Reader<'a> {
    rest: &'a [u8],
}

impl<'a> Reader<'a> {
    pub fn new(file: &'a [u8]) -> Self {
        Reader { rest: file }
    }

    // The next number.
    pub fn number(&mut self) -> Option<usize> {
        let (v, next) = numbers::number(self.rest, 0)?;
        self.rest = self.rest.get(next..)?;
        Some(v)
    }

    // The same, signed.
    pub fn signed(&mut self) -> Option<i64> {
        let (v, next) = numbers::signed(self.rest, 0)?;
        self.rest = self.rest.get(next..)?;
        Some(v)
    }

    // Past so many numbers.
    pub fn pass(&mut self, count: usize) {
        for _ in 0..count {
            let _ = self.number();
        }
    }

    // So many bytes.
    pub fn part(&mut self, length: usize) -> Option<&'a [u8]> {
        let (part, rest) = self.rest.split_at_checked(length)?;
        self.rest = rest;
        Some(part)
    }
}
