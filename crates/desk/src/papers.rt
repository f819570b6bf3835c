// The words that a program is called with: files that they name, read into memory, and numbers. Relies on std for input and output, on page tellings for
// standard error. Leaves out what a file says. No more of a file is read than a right one of its kind can have, and as many bytes as settle what is said of
// one that goes on behind that; so every file is judged, however long. A start file's lengths may reach as far as they like, so that no number of bytes
// settles what is said of it: one that goes on is not judged (read_whole_at_once).
ghost use Rattle.std.specs.Prelude.{◌≡◌, ◌≤◌, ◌+◌, ◌↔◌, false, codes, length, IfOk, IsTrue, MatchOption, vec_len};
ghost use Rattle.io.specs.Counts.{IsPrefixLen};

use crate::tellings;
use std::alloc::{AllocError, Global};
use std::env::{Env, FillError};
use std::fs::File;
use std::io::{Cursor, Read, Stderr, Write};
use std::rt::Files;
use std::{io, str};

// The bytes of a file of each kind that are judged. No plant has more than 27,704 bytes, and a byte more settles any file. No table has more than 58,965; its
// last number begins at 58,963 at most, and five bytes tell what a number is.
pub const PLANT: usize = 27_705;

pub const TABLE: usize = 58_970;

// More than the 530,810 bytes of the largest.
pub const START: usize = 535_000;

// Room for a word: no path has more than 4,095 bytes.
const WORD: usize = 4_096;

// A word more than any program takes.
const WORDS: usize = 5;

// The system's numbers of two errors: a word that can name no file, and one that is too long.
const INVALID: i32 = 22;

const TOO_LONG: i32 = 36;

// A word's bytes, which need not be text; none where it is too long to name a file.
pub type Word = Option<Vec<u8>>;

// Why a program says nothing of its files.
#[derive(Drop)]
pub enum Fault<'a> {
    // it is called otherwise than in these words
    Usage(&'static str),
    // the word is too long
    Word,
    // the file of that name cannot be read
    File(&'a [u8], io::Error),
    // the file goes on behind what is read of it
    Length,
    Memory(AllocError),
}

impl From<AllocError> for Fault<'_> {
    fn from(error: AllocError) -> Self {
        Fault::Memory(error)
    }
}

impl Fault<'_> {
    // A line to standard error. It takes no memory but the stack's.
    pub fn tell(self, err: Stderr) {
        match self {
            Fault::Usage(words) => {
                tellings::say(&err, b"usage: ");
                tellings::say(&err, words.as_bytes());
                tellings::say(&err, b"\n");
            }
            Fault::Word => fail(err, b"argument", io::Error::from_raw_os_error(TOO_LONG)),
            Fault::File(path, error) => fail(err, path, error),
            Fault::Length => tellings::say(&err, b"longer than any such file can be\n"),
            Fault::Memory(_) => tellings::say(&err, b"out of memory\n"),
        }
    }
}

// Why a call failed, in the system's words, at the start of buf; how many bytes. From the first blank with a bracket behind it on nothing is told: there std
// puts the error's number.
fn reason(error: io::Error, buf: &mut [u8]) -> usize
    ensures { result ≤ length buf.new }
{
    let mut text = Cursor::new(&mut *buf);
    let _ = write!(text, "{error}");
    let end = text.position() as usize;
    let end = end.min(buf.len());
    buf[..end]
        .windows(2)
        .position(|pair| pair == b" (".as_slice())
        .unwrap_or(end)
}

// A line to standard error: what failed, as the caller names it, a colon and why.
fn fail(err: Stderr, what: &[u8], error: io::Error) {
    let mut text = [0u8; 128];
    let n = reason(error, &mut text);
    tellings::say(&err, what);
    tellings::say(&err, b": ");
    tellings::say(&err, &text[..n]);
    tellings::say(&err, b"\n");
}

// How many words the program was called with, its own name among them.
pub fn given(rt: &impl Env) -> usize {
    let mut byte = [0u8; 1];
    for i in 0..usize::MAX {
        if let Err(FillError::NotPresent) = rt.arg(i, &mut byte) {
            return i;
        }
    }
    usize::MAX
}

// The words that the program was called with, its own name first.
pub fn words(rt: &(impl Env + AllocGlobal)) -> Result<Vec<Word>, AllocError>
    ensures { IfOk result (λ v. vec_len v ≤ 5) }
{
    let mut words = Vec::new(rt.alloc());
    let mut room = [0u8; WORD];
    for i in 0..WORDS {
        match rt.arg(i, &mut room) {
            Ok(length) => words.push(Some(Vec::from_slice(rt.alloc(), &room[..length])?))?,
            Err(FillError::TooLong) => words.push(None)?,
            Err(FillError::NotPresent) => break,
        }
    }
    Ok(words)
}

// Whether a word is "start".
pub fn says_start(word: &Word) -> bool
    ensures { MatchOption word.now (result ≡ false) (λ v. IsTrue result ↔ (v.items ≡ codes "start")) }
{
    match word {
        Some(letters) => letters.as_slice() == b"start".as_slice(),
        None => false,
    }
}

// The number that a word of decimal digits says. One too long to hold counts as the largest: it is never taken for a small one.
pub fn number(word: &Word) -> Option<usize> {
    let letters = word.as_ref()?;
    let digits = str::from_utf8(letters.as_slice()).ok()?;
    if digits.is_empty() || !digits.bytes().all(|digit| digit.is_ascii_digit()) {
        return None;
    }
    Some(digits.parse().unwrap_or(usize::MAX))
}

// Reads until buf is full, the input ends or a read fails; how many bytes stand at the start of buf, and whether all went well.
fn fill(file: &mut impl Read, buf: &mut [u8]) -> (usize, io::Result<()>)
    ensures { IsPrefixLen result.0 buf.new }
{
    let mut done: usize = 0;
    while done < buf.len() {
        match file.read(&mut buf[done..]) {
            Ok(0) => break,
            Ok(n) => done += n,
            Err(error) => return (done, Err(error)),
        }
    }
    (done, Ok(()))
}

// The same of an input whose errors nobody is told.
pub fn read_full(file: &mut impl Read, buf: &mut [u8]) -> usize
    ensures { IsPrefixLen result buf.new }
{
    let (done, _) = fill(file, buf);
    done
}

// The file of that name. A name is text in std: one that is none names no file.
fn open<R: Files>(rt: &R, path: &[u8]) -> io::Result<R::File> {
    match str::from_utf8(path) {
        Ok(name) => File::open(rt, name),
        Err(_) => Err(io::Error::from_raw_os_error(INVALID)),
    }
}

// The file that a word names, as many bytes and one more, where there are so many: no more are read, into memory for so many.
fn read_past<'a>(
    rt: &(impl Files + AllocGlobal),
    word: &'a Word,
    most: usize,
) -> Result<Vec<u8>, Fault<'a>>
    ensures { IfOk result (λ v. vec_len v ≤ most + 1) }
{
    let path = word.as_ref().ok_or(Fault::Word)?.as_slice();
    let mut file = open(rt, path).map_err(|error| Fault::File(path, error))?;
    let mut bytes = vec![in rt.alloc(); 0u8; most.saturating_add(1)]?;
    let (length, ended) = fill(&mut file, bytes.as_mut_slice());
    ended.map_err(|error| Fault::File(path, error))?;
    bytes.truncate(length);
    Ok(bytes)
}

// The file that a word names, as many bytes at most. Memory for so many and one more is taken at once: the programs, which read so, know beforehand how much.
pub fn read_at_once<'a>(
    rt: &(impl Files + AllocGlobal),
    word: &'a Word,
    most: usize,
) -> Result<Vec<u8>, Fault<'a>>
    ensures { IfOk result (λ v. vec_len v ≤ most) }
{
    let mut bytes = read_past(rt, word, most)?;
    bytes.truncate(most);
    Ok(bytes)
}

// The same, of a file that has to be read whole.
pub fn read_whole_at_once<'a>(
    rt: &(impl Files + AllocGlobal),
    word: &'a Word,
    most: usize,
) -> Result<Vec<u8>, Fault<'a>>
    ensures { IfOk result (λ v. vec_len v ≤ most) }
{
    let bytes = read_past(rt, word, most)?;
    if most < bytes.len() {
        return Err(Fault::Length);
    }
    Ok(bytes)
}

// An input to its end, as many bytes at most. std takes memory as it reads, and tries a read that is interrupted again.
fn read_growing(input: impl Read + Drop, alloc: Global, most: usize) -> io::Result<Vec<u8>>
    ensures { IfOk result (λ v. vec_len v ≤ most) }
{
    let mut taken = Vec::new(alloc);
    input.take(most as u64).read_to_end(&mut taken)?;
    taken.truncate(most);
    Ok(taken)
}

// The file that a word names, as many bytes and one more, where there are so many, into memory that grows with it.
fn grow_past<'a>(
    rt: &(impl Files + AllocGlobal),
    word: &'a Word,
    most: usize,
) -> Result<Vec<u8>, Fault<'a>>
    ensures { IfOk result (λ v. vec_len v ≤ most + 1) }
{
    let path = word.as_ref().ok_or(Fault::Word)?.as_slice();
    let file = open(rt, path).map_err(|error| Fault::File(path, error))?;
    read_growing(file, rt.alloc(), most.saturating_add(1)).map_err(|error| Fault::File(path, error))
}

// The file that a word names, as many bytes at most. Memory is taken as it is read, for what the file has, however large `most` is.
pub fn read<'a>(
    rt: &(impl Files + AllocGlobal),
    word: &'a Word,
    most: usize,
) -> Result<Vec<u8>, Fault<'a>>
    ensures { IfOk result (λ v. vec_len v ≤ most) }
{
    let mut grown = grow_past(rt, word, most)?;
    grown.truncate(most);
    Ok(grown)
}

// The same, of a file that has to be read whole.
pub fn read_whole<'a>(
    rt: &(impl Files + AllocGlobal),
    word: &'a Word,
    most: usize,
) -> Result<Vec<u8>, Fault<'a>>
    ensures { IfOk result (λ v. vec_len v ≤ most) }
{
    let grown = grow_past(rt, word, most)?;
    if most < grown.len() {
        return Err(Fault::Length);
    }
    Ok(grown)
}

#[cfg(test)]
mod tests {
    use super::*;
    use std::io::ErrorKind;
    use std::test::Fail;

    // An input whose reads are interrupted, every other one.
    #[derive(Drop)]
    struct Halting<'a> {
        rest: &'a [u8],
        halts: bool,
    }

    impl Read for Halting<'_> {
        fn read(&mut self, buf: &mut [u8]) -> io::Result<usize> {
            self.halts = !self.halts;
            if self.halts {
                return Err(io::Error::from(ErrorKind::Interrupted));
            }
            self.rest.read(buf)
        }
    }

    // A program that is called with empty words, one behind the other without end.
    #[derive(Clone, Copy)]
    struct Endless;

    impl Env for Endless {
        fn arg(&self, _i: usize, _buf: &mut [u8]) -> Result<usize, FillError> {
            Ok(0)
        }

        fn var(&self, _name: &str, _buf: &mut [u8]) -> Result<usize, FillError> {
            Err(FillError::NotPresent)
        }

        fn var_at(&self, _i: usize, _buf: &mut [u8]) -> Result<usize, FillError> {
            Err(FillError::NotPresent)
        }
    }

    fn word(alloc: Global, letters: &str) -> Result<Word, AllocError> {
        Ok(Some(Vec::from_slice(alloc, letters.as_bytes())?))
    }

    #[test]
    fn reads_no_more(rt: HostRuntime) -> Result<(), Fail> {
        let mut input = b"a plant".as_slice();
        let mut front = [0u8; 3];
        let mut rest = [0u8; 5];
        assert_eq!(rt; read_full(&mut input, &mut front), 3);
        assert_eq!(rt; read_full(&mut input, &mut rest), 4);
        assert_eq!(rt; front.as_slice(), b"a p".as_slice());
        assert_eq!(rt; rest.as_slice(), b"lant\0".as_slice());
        Ok(())
    }

    #[test]
    fn numbers(rt: HostRuntime) -> Result<(), Fail> {
        let alloc = rt.alloc();
        assert_eq!(rt; number(&word(alloc, "0")?), Some(0));
        assert_eq!(rt; number(&word(alloc, "0012")?), Some(12));
        assert_eq!(rt;
            number(&word(alloc, "18446744073709551615")?),
            Some(usize::MAX)
        );
        assert_eq!(rt;
            number(&word(alloc, "18446744073709551617")?),
            Some(usize::MAX)
        );
        assert_eq!(rt; number(&word(alloc, "99999999999999999999999x")?), None);
        assert_eq!(rt; number(&word(alloc, "+1")?), None);
        assert_eq!(rt; number(&word(alloc, "")?), None);
        assert_eq!(rt; number(&None), None);
        Ok(())
    }

    #[test]
    fn reads_files(rt: HostRuntime) -> Result<(), Fail> {
        let zeros = word(rt.alloc(), "/dev/zero")?;
        let nothing = word(rt.alloc(), "/dev/null")?;
        if let Ok(bytes) = read(&rt, &zeros, 3) {
            assert_eq!(rt; bytes.as_slice(), b"\0\0\0".as_slice());
        } else {
            assert!(rt; false, "not read");
        }
        if let Ok(bytes) = read_whole(&rt, &nothing, 3) {
            assert!(rt; bytes.is_empty());
        } else {
            assert!(rt; false, "not read whole");
        }
        assert!(rt; read_whole(&rt, &zeros, 3).is_err());
        Ok(())
    }

    #[test]
    fn reads_at_once(rt: HostRuntime) -> Result<(), Fail> {
        let zeros = word(rt.alloc(), "/dev/zero")?;
        let nothing = word(rt.alloc(), "/dev/null")?;
        if let Ok(bytes) = read_at_once(&rt, &zeros, 3) {
            assert_eq!(rt; bytes.as_slice(), b"\0\0\0".as_slice());
        } else {
            assert!(rt; false, "not read");
        }
        if let Ok(bytes) = read_whole_at_once(&rt, &nothing, 3) {
            assert!(rt; bytes.is_empty());
        } else {
            assert!(rt; false, "not read whole");
        }
        assert!(rt; read_whole_at_once(&rt, &zeros, 3).is_err());
        Ok(())
    }

    #[test]
    fn reads_however_much(rt: HostRuntime) -> Result<(), Fail> {
        let nothing = word(rt.alloc(), "/dev/null")?;
        assert!(rt; read(&rt, &nothing, usize::MAX).is_ok_and(|bytes| bytes.is_empty()));
        assert!(rt; read_whole(&rt, &nothing, usize::MAX).is_ok_and(|bytes| bytes.is_empty()));
        assert!(rt; read_at_once(&rt, &nothing, usize::MAX).is_err());
        assert!(rt; read_whole_at_once(&rt, &nothing, usize::MAX).is_err());
        Ok(())
    }

    #[test]
    fn interrupted(rt: HostRuntime) -> Result<(), Fail> {
        for most in [1, 6, 7, usize::MAX] {
            let input = Halting {
                rest: b"a plant".as_slice(),
                halts: false,
            };
            if let Ok(bytes) = read_growing(input, rt.alloc(), most) {
                assert_eq!(rt; bytes.as_slice(), &b"a plant"[..most.min(7)]);
            } else {
                assert!(rt; false, "not read");
            }
        }
        Ok(())
    }

    #[test]
    fn reasons(rt: HostRuntime) -> Result<(), Fail> {
        let mut text = [0u8; 128];
        let length = reason(io::Error::from_raw_os_error(TOO_LONG), &mut text);
        assert_eq!(rt; &text[..length], b"File name too long".as_slice());
        let length = reason(io::Error::other("wait(2) failed"), &mut text);
        assert_eq!(rt; &text[..length], b"wait(2) failed".as_slice());
        let length = reason(io::Error::other("no room (of 3)"), &mut text);
        assert_eq!(rt; &text[..length], b"no room".as_slice());
        Ok(())
    }

    #[test]
    fn own_name_first(rt: HostRuntime) -> Result<(), Fail> {
        let words = words(&rt)?;
        assert!(rt; !words.is_empty());
        Ok(())
    }

    #[test]
    fn no_word_too_many(rt: HostRuntime) -> Result<(), Fail> {
        let words = words(&(Endless, rt.alloc()))?;
        assert_eq!(rt; words.len(), WORDS);
        Ok(())
    }

    #[test]
    fn as_many_as_given(rt: HostRuntime) -> Result<(), Fail> {
        assert_eq!(rt; words(&rt)?.len(), given(&rt).min(WORDS));
        Ok(())
    }
}
