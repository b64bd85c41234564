// An N: a plain decimal in its range.
ghost use Rattle.std.specs.Prelude.{◌+◌, ◌≤◌, length, take, drop};
ghost use Rattle.reading.specs.Numbers.{NumberIs, number_values};

/// The number that the n bytes from a place on are the plain decimal of, if it is below the bound. `str::parse` would take `+5` and `05` too.
pub fn number_in(s: &[u8], place: usize, n: usize, below: usize) -> Option<u16>
    requires n_in_bounds { place + n ≤ length s.now }
    requires below_bound { below ≤ 65536 }
    ensures { NumberIs (take n (drop place s.now)) below (number_values result) }
{
    // no number below 65,536 has more than five digits
    if n == 0 || 5 < n {
        return None;
    }
    let digits = &s[place..place + n];
    if digits[0] == b'0' && 1 < n {
        return None;
    }
    let mut v: usize = 0;
    for b in digits {
        if !b.is_ascii_digit() {
            return None;
        }
        v = 10 * v + (*b - b'0') as usize;
    }
    if v < below { Some(v as u16) } else { None }
}
