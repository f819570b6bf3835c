// Numbers in a lent array of any length: one stored where there is room, one looked at, all cleared. Relies on nothing. Leaves out what the numbers mean.
ghost use Rattle.std.specs.Prelude.{◌≡◌, length, set, replicate, pos};
ghost use Rattle.laws.specs.Lists as L;

// Stores a number, where there is room for it.
pub fn store(values: &mut [i64], at: usize, v: i64)
    ensures { values.new ≡ set values.old at v }
{
    if at < values.len() {
        values[at] = v;
    }
}

// The i-th number; 0 behind the last.
pub fn number(values: &[i64], i: usize) -> i64
    ensures { result ≡ L.at values.now i }
{
    if i < values.len() { values[i] } else { 0 }
}

// Zeros the whole array, as a refused read does.
pub fn clear(values: &mut [i64])
    ensures { values.new ≡ replicate (length values.old) (pos 0) }
{
    values.fill(0);
}
