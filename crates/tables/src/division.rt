// Division of signed numerators (document 01, "Image"): the low edge is rounded up and the high edge down, exact around zero.
// Relies on crates/laws, page Division. Leaves out numerators beyond those of an image.
ghost use Rattle.std.specs.Prelude.{◌≡◌, ◌≤◌, nat_abs};
ghost use Rattle.laws.specs.Division.{floor_z, ceil_z};
ghost use Rattle.tables.specs.Images.{sum_limit};

// Rounded down. The machine cuts towards zero, so that what is divided is made a number above 0: num + q, which gives one more, and below 0
// q - 1 - num, mirrored. Above 0 and small, it is divided by the machine's short division, and a sign costs nothing.
pub fn floor(num: i64, q: usize) -> i64
    requires { (nat_abs num ≤ sum_limit) × (1 ≤ q) × (q ≤ 10_000) }
    ensures { result ≡ floor_z num q }
{
    let d = q as i64;
    if 0 <= num {
        (num + d) / d - 1
    } else {
        0 - (d - 1 - num) / d
    }
}

// Rounded up: the floor of what is mirrored at 0.
pub fn ceiling(num: i64, q: usize) -> i64
    requires { (nat_abs num ≤ sum_limit) × (1 ≤ q) × (q ≤ 10_000) }
    ensures { result ≡ ceil_z num q }
{
    0 - floor(0 - num, q)
}
