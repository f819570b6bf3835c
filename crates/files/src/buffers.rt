// Lent buffers as writers leave them (meaning, page Buffers): zeros where a write is refused, else the file; and bytes that are copied to a place of
// one. Relies on refusals for 10. Leaves out how a file is drafted and judged.
ghost use Rattle.std.specs.Prelude.{◌≤◌, ◌≡◌, length, replicate};
ghost use Rattle.std.proofs.lemmas.List.Edits.{sets};
ghost use Rattle.laws.specs.Writing.{Put};
ghost use Rattle.meaning.specs.Answers.{verdict_in};
ghost use Rattle.meaning.specs.Buffers.{refused_with, left};
ghost use Rattle.meaning.specs.Files.{good};
ghost use Rattle.files.specs.Beginnings.{by_verdict};

use crate::refusals;
use meaning::Refusal;

// Zeros the whole buffer, as a refused write does.
pub fn clear(buf: &mut [u8])
    ensures { buf.new ≡ replicate (length buf.old) 0 }
{
    buf.fill(0);
}

// A refused write.
pub fn refuse(e: Refusal, buf: &mut [u8]) -> Result<usize, Refusal>
    ensures answer { result ≡ (refused_with e buf.old).answer }
    ensures bytes { buf.new ≡ (refused_with e buf.old).buffer }
{
    clear(buf);
    Err(e)
}

// By a loop: `copy_from_slice` is a call of memmove, which a library for C would then want beside memcpy and memset.
fn copy(file: &[u8], buf: &mut [u8])
    requires { length file.now ≤ length buf.old }
    ensures { buf.new ≡ sets buf.old 0 file.now }
{
    for i in 0..file.len() {
        buf[i] = file[i];
    }
}

// Some bytes at `at`, as far as there is room; the place behind them, or one past the buffer's end where there is not room for all.
pub fn put_bytes(buf: &mut [u8], at: usize, bytes: &[u8]) -> usize
    ensures { Put buf.old at bytes.now result buf.new }
{
    let long = buf.len();
    if long < at {
        return long + 1;
    }
    let room = long - at;
    let size = bytes.len();
    if size <= room {
        copy(bytes, &mut buf[at..]);
        return at + size;
    }
    copy(&bytes[..room], &mut buf[at..]);
    long + 1
}

// A write of a file that was drafted and judged: what the verdict refuses, then 10. Finished, only the file's bytes are changed.
pub fn leave<T: Copy>(
    judged: Result<T, Refusal>,
    file: &[u8],
    buf: &mut [u8],
) -> Result<usize, Refusal>
    ensures answer { result ≡ (left (by_verdict (verdict_in judged) λ _. good file.now) buf.old).answer }
    ensures bytes { buf.new ≡ (left (by_verdict (verdict_in judged) λ _. good file.now) buf.old).buffer }
{
    match judged {
        Err(e) => refuse(e, buf),
        Ok(_) => {
            if buf.len() < file.len() {
                return refuse(refusals::short(), buf);
            }
            copy(file, buf);
            Ok(file.len())
        }
    }
}
