// Seven-bit numbers at any position of any slice, read and written. Relies on nothing. Leaves out what a number is for: that is its field's (fields).
ghost use Rattle.std.specs.Prelude.{◌≡◌, [], ◌∷◌};
ghost use Rattle.laws.specs.Writing.{Put};
ghost use Rattle.meaning.specs.Numbers.{number_at, signed_at, bytes_of, stored};

// The number at `at` and the place behind it; broken where it ends early, is over 5 bytes, or not shortest.
pub fn number(s: &[u8], at: usize) -> Option<(usize, usize)>
    ensures { result ≡ number_at s.now at }
{
    let mut v: usize = 0;
    let mut w: usize = 1;
    for k in 0..5 {
        let i = at + k;
        if s.len() <= i {
            return None;
        }
        let c = s[i] as usize;
        if c < 128 {
            if c == 0 && w != 1 {
                return None;
            }
            let value = v + c * w;
            return Some((value, i + 1));
        }
        v += (c - 128) * w;
        w *= 128;
    }
    None
}

// The same as a signed number.
pub fn signed(s: &[u8], at: usize) -> Option<(i64, usize)>
    ensures { result ≡ signed_at s.now at }
{
    let (v, next) = number(s, at)?;
    let half = (v / 2) as i64;
    if v % 2 == 0 {
        Some((half, next))
    } else {
        Some((-1 - half, next))
    }
}

// One byte at `at`, where there is room; the place behind it, or one past the buffer's end where there is none.
pub fn put_byte(buf: &mut [u8], at: usize, b: u8) -> usize
    ensures { Put buf.old at (b ∷ []) result buf.new }
{
    if at < buf.len() {
        buf[at] = b;
        at + 1
    } else {
        buf.len() + 1
    }
}

// The bytes of v at `at`, as far as there is room; the place behind them, or one past the buffer's end where there is not room for all.
pub fn put_number(buf: &mut [u8], at: usize, v: usize) -> usize
    ensures { Put buf.old at (bytes_of v) result buf.new }
{
    let mut p = at;
    let mut x = v;
    while 128 <= x {
        p = put_byte(buf, p, (x % 128 + 128) as u8);
        x /= 128;
    }
    put_byte(buf, p, x as u8)
}

// The same of a signed number.
pub fn put_signed(buf: &mut [u8], at: usize, v: i64) -> usize
    ensures { Put buf.old at (bytes_of (stored v)) result buf.new }
{
    if 0 <= v {
        return put_number(buf, at, (v as usize) * 2);
    }
    put_number(buf, at, ((-1 - v) as usize) * 2 + 1)
}
