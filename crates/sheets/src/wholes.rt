// A float times a count, rounded to a whole number of the plant: exact, halves away from zero (document 01, "The sheet"). Assumes nothing.
// Leaves out where the floats come from (equations).
ghost use Rattle.std.specs.Prelude.{◌≡◌, ◌≤◌};
ghost use Rattle.meaning.specs.Sheets.{signed_by, limited_to, whole_of};

// A size with its sign, where it is within the limit.
fn limited(limit: usize, negative: bool, size: u64) -> Option<i64>
    requires { limit ≤ 10000000000 }
    ensures { result ≡ limited_to limit (signed_by negative size) }
{
    if (limit as u64) < size {
        return None;
    }
    let v = size as i64;
    Some(if negative { -v } else { v })
}

// The whole number nearest k·x, where it is within ± the limit.
pub fn whole(limit: usize, k: usize, x: f64) -> Option<i64>
    requires fact_1 { 1 ≤ k }
    requires fact_2 { k ≤ 10000000 }
    requires fact_3 { limit ≤ 10000000000 }
    ensures { result ≡ whole_of limit k x }
{
    if x.is_nan() {
        return None;
    }
    let bits = f64::to_bits(x);
    let e = bits % 0x8000_0000_0000_0000 / 0x10_0000_0000_0000;
    // x is 2^34 or more, or an infinity
    if 1057 <= e {
        return None;
    }
    // k·x is below a half
    if e < 993 {
        return Some(0);
    }
    // x is m·2^(e - 1075); the whole part of k·m / 2^18 has less than 60 bits, k·m up to 77
    let m = 0x10_0000_0000_0000 + bits % 0x10_0000_0000_0000;
    let c = k as u64;
    let high = c * (m / 0x4_0000) + c * (m % 0x4_0000) / 0x4_0000;
    // the whole part of 2·k·x
    let twice = high >> (1056 - e);
    limited(limit, 0x8000_0000_0000_0000 <= bits, (twice + 1) / 2)
}
