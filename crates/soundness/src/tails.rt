// Whether a row holds zeros from an index on: eight octets at a time; where fewer are left four, two and one.
ghost use Rattle.std.specs.Prelude.{◌+◌, ◌≤◌, ◌<◌, ◌≡◌, length, drop};
ghost use Rattle.laws.specs.Loops.{every};
ghost use Rattle.parts.specs.Parts.{is_zero};

// .. where at most one octet is left.
fn zero_one(r: &[u8], i: usize) -> bool
    requires { (i ≤ length r.now) × (length r.now ≤ i + 1) }
    ensures { result ≡ every is_zero (drop i r.now) }
{
    if i < r.len() {
        return r[i] == 0;
    }
    true
}

// .. at most three.
fn zeros_two(r: &[u8], i: usize) -> bool
    requires { (i ≤ length r.now) × (length r.now ≤ i + 3) }
    ensures { result ≡ every is_zero (drop i r.now) }
{
    if r.len() - i < 2 {
        return zero_one(r, i);
    }
    if octets::get16(r, i) != 0 {
        return false;
    }
    zero_one(r, i + 2)
}

// .. at most seven.
fn zeros_four(r: &[u8], i: usize) -> bool
    requires { (i ≤ length r.now) × (length r.now ≤ i + 7) }
    ensures { result ≡ every is_zero (drop i r.now) }
{
    if r.len() - i < 4 {
        return zeros_two(r, i);
    }
    if octets::get32(r, i) != 0 {
        return false;
    }
    zeros_two(r, i + 4)
}

// The same of any row: the last eight octets and, before them, eight at a time, with no way out before the end.
pub(super) fn zeros_from(r: &[u8], from: usize) -> bool
    requires { from ≤ length r.now }
    ensures { result ≡ every is_zero (drop from r.now) }
{
    let n = r.len();
    if n - from < 8 {
        return zeros_four(r, from);
    }
    let last = n - 8;
    let mut any = octets::get64(r, last);
    // Kept: a `while` by eights: chunks would leave a rest of up to seven octets, which the last eight take.
    let mut i = from;
    while i < last {
        any = any | octets::get64(r, i);
        i += 8;
    }
    any == 0
}
