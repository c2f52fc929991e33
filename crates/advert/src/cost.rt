// The cost of a match (document 02, T-08): patterns matched as in patterns.rt, with every comparison counted where it
// is made. It stands beside that matcher, since a packet's path with the count costs more than a twentieth more
// (docs/PERFORMANCE.md, T-08).
ghost use Rattle.std.specs.Prelude.{◌≡◌, ◌+◌, ◌<◌, ◌≤◌, length};
ghost use Rattle.laws.specs.Loops.{some};
ghost use Rattle.advert.specs.Either.{both};
ghost use Rattle.advert.specs.Pattern.{holds_at, pattern_meets};
ghost use Rattle.advert.specs.Cost.{octets_cost, both_cost, pattern_cost};

// Whether some section of AD type t, of either text, holds the octets at the start byte, and the comparisons made.
fn some_cost<'a, 'b>(
    adv: &'a [u8],
    scan: &'a [u8],
    t: u8,
    start: usize,
    octets: &'b [u8],
) -> super::Match
    ensures { (result.found ≡ some (holds_at start octets.now) (both t t adv.now scan.now))
        × (result.comparisons
        ≡ both_cost t t (octets_cost start octets.now) (holds_at start octets.now)
        adv.now scan.now) }
{
    let mut second = false;
    let mut at = 0;
    let mut seen = 0;
    let mut count = 0;
    while let Some(part) = super::lookup::next_section(
        adv,
        scan,
        &mut second,
        &mut at,
        &mut seen,
        t,
        t,
    ) {
        count += seen;
        let c = super::patterns::compare(&part[1..], start, octets);
        count += c.count;
        if c.same {
            return super::Match {
                found: true,
                comparisons: count,
            };
        }
        if !super::lookup::has_more(adv, scan, second, at) {
            return super::Match {
                found: false,
                comparisons: count,
            };
        }
    }
    super::Match {
        found: false,
        comparisons: count + seen,
    }
}

// Whether either text matches the pattern: AD type, start byte, octets, and the comparisons made.
pub(super) fn pattern_cost<'a, 'b>(pattern: &'b [u8], adv: &'a [u8], scan: &'a [u8]) -> super::Match
    requires { 2 ≤ length pattern.now }
    ensures { (result.found ≡ pattern_meets adv.now scan.now pattern.now)
        × (result.comparisons ≡ pattern_cost adv.now scan.now pattern.now) }
{
    let t = pattern[0];
    let start = octets::wide(pattern[1]);
    some_cost(adv, scan, t, start, &pattern[2..])
}
