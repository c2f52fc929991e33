// Patterns: the form of a condition of type 1, and whether either text matches it (document 01, Conditions).
ghost use Rattle.std.specs.Prelude.{◌≡◌, ◌+◌, ◌<◌, ◌≤◌, length};
ghost use Rattle.laws.specs.Loops.{some};
ghost use Rattle.advert.specs.Either.{both};
ghost use Rattle.advert.specs.Pattern.{holds_at, patterns_form, pattern_meets, patterns_meet};
ghost use Rattle.advert.specs.Cost.{octets_cost};

// Whether octets are the same, and how many were compared.
#[derive(Clone, Copy)]
pub(super) struct Compared {
    pub(super) same: bool,
    pub(super) count: usize,
}

// Whether the text holds these octets at that index: compared up to the first that differs, that one included.
pub(super) fn compare(text: &[u8], at: usize, octets: &[u8]) -> Compared
    ensures { (result.same ≡ holds_at at octets.now text.now)
        × (result.count ≡ octets_cost at octets.now text.now) }
{
    let n = octets.len();
    if text.len() < n {
        return Compared {
            same: false,
            count: 0,
        };
    }
    if text.len() - n < at {
        return Compared {
            same: false,
            count: 0,
        };
    }
    for j in 0..n {
        if text[at + j] != octets[j] {
            return Compared {
                same: false,
                count: j + 1,
            };
        }
    }
    Compared {
        same: true,
        count: n,
    }
}

// Whether some section of AD type t, of either text, holds the octets at the start byte.
fn some_holds<'a, 'b>(adv: &'a [u8], scan: &'a [u8], t: u8, start: usize, octets: &'b [u8]) -> bool
    ensures { result
        ≡ some (holds_at start octets.now) (both t t adv.now scan.now) }
{
    let mut second = false;
    let mut at = 0;
    let mut seen = 0;
    while let Some(part) = super::lookup::next_section(
        adv,
        scan,
        &mut second,
        &mut at,
        &mut seen,
        t,
        t,
    ) {
        let c = compare(&part[1..], start, octets);
        if c.same {
            return true;
        }
        if !super::lookup::has_more(adv, scan, second, at) {
            return false;
        }
    }
    false
}

// Whether either text matches the pattern: AD type, start byte, octets.
fn pattern_meets<'a, 'b>(pattern: &'b [u8], adv: &'a [u8], scan: &'a [u8]) -> bool
    requires { 2 ≤ length pattern.now }
    ensures { result ≡ pattern_meets adv.now scan.now pattern.now }
{
    let t = pattern[0];
    let start = octets::wide(pattern[1]);
    some_holds(adv, scan, t, start, &pattern[2..])
}

// Whether either text matches some pattern of the condition.
pub(super) fn patterns_meet<'a, 'b>(condition: &'b [u8], adv: &'a [u8], scan: &'a [u8]) -> bool
    ensures { result ≡ patterns_meet condition.now adv.now scan.now }
{
    let mut i = 1;
    // Kept: a walk, whose step is the length that stands in the condition.
    while i < condition.len() {
        match super::lookup::part_end(condition, i, 3) {
            None => return false,
            Some(e) => {
                let b = i + 1;
                if pattern_meets(&condition[b..e], adv, scan) {
                    return true;
                }
                i = e;
            }
        }
    }
    false
}

// Whether the condition is a count of at least 1 and that many patterns.
pub(super) fn patterns_form(condition: &[u8]) -> bool
    ensures { result ≡ patterns_form condition.now }
{
    if condition.len() == 0 {
        return false;
    }
    let mut left = condition[0];
    if left == 0 {
        return false;
    }
    let mut i = 1;
    // Kept: a walk, whose step is the length that stands in the condition.
    while i < condition.len() {
        match super::lookup::part_end(condition, i, 3) {
            None => return false,
            Some(next) => {
                if left == 0 {
                    return false;
                }
                left -= 1;
                i = next;
            }
        }
    }
    left == 0
}
