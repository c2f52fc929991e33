// The lookup of AD sections in a packet's two texts, the advertisement and the scan response (document 01,
// Conditions; document 02, T-06). It hands back the part found, a part of whichever text holds it. Both texts stand
// at one lifetime, here and in every caller. No other function of the project walks AD structures; the patterns of a
// condition have the same layout and use part_end.
ghost use Rattle.std.specs.Prelude.{◌≡◌, ◌≢◌, ◌<◌, ◌≤◌, [], false, length, MatchOption};
ghost use Rattle.advert.specs.Parts.{PartAt};
ghost use Rattle.advert.specs.Spans.{Looked};
ghost use Rattle.advert.specs.Either.{text_of, rest, Handed};

// Where the content of a section stands: from index from on, to before index to.
#[derive(Clone, Copy)]
struct Span {
    from: usize,
    to: usize,
}

// The section that was found, where one was, and how many AD types were looked at.
#[derive(Clone, Copy)]
struct Section {
    span: Option<Span>,
    seen: usize,
}

// The index after the part that begins at i, where there is one.
pub(super) fn part_end(text: &[u8], i: usize, least: usize) -> Option<usize>
    requires { i ≤ length text.now }
    ensures { MatchOption result (PartAt least text.now i i) (λ e. PartAt least text.now i e × (i < e)) }
{
    let n = text.len();
    if i == n {
        return None;
    }
    let x = octets::wide(text[i]);
    if x < least {
        return None;
    }
    if n - i <= x {
        return None;
    }
    Some(i + 1 + x)
}

// The first section of AD type t or u at index at or later of one text.
fn find_section(adv: &[u8], at: usize, t: u8, u: u8) -> Section
    requires { at ≤ length adv.now }
    ensures { Looked t u adv.now at result.seen result.span }
{
    let mut i = at;
    let mut seen = 0;
    // Kept: a walk, whose step is the length that stands in the text.
    while let Some(e) = part_end(adv, i, 1) {
        let x = adv[i + 1];
        seen += 1;
        let hit = (x == t) | (x == u);
        if hit {
            return Section {
                span: Some(Span { from: i + 2, to: e }),
                seen,
            };
        }
        i = e;
    }
    Section { span: None, seen }
}

// The text of a place: the scan response where second, else the advertisement.
fn text_of<'a>(adv: &'a [u8], scan: &'a [u8], second: bool) -> &'a [u8]
    ensures { result.now ≡ text_of second adv.now scan.now }
{
    if second {
        return scan;
    }
    adv
}

// Whether octets are left at a place.
pub(super) fn has_more(adv: &[u8], scan: &[u8], second: bool, at: usize) -> bool
    ensures { result ≡ false → rest adv.now scan.now second at ≡ 0 }
{
    if second {
        return at < scan.len();
    }
    (at < adv.len()) | (0 < scan.len())
}

// The lookup: the next section of AD type t or u, from its AD type octet on, a part of whichever text holds it, the
// advertisement first. The place then stands after it. Where there is none the place is left.
// Says how many AD types were looked at.
pub(super) fn next_section<'a, 'b, 'c, 'd>(
    adv: &'a [u8],
    scan: &'a [u8],
    second: &'b mut bool,
    at: &'c mut usize,
    seen: &'d mut usize,
    t: u8,
    u: u8,
) -> Option<&'a [u8]>
    requires { at.old ≤ length (text_of second.old adv.now scan.now) }
    ensures { MatchOption result (Handed t u adv.now scan.now second.old at.old second.new at.new seen.new [])
        (λ part. Handed t u adv.now scan.now second.old at.old second.new at.new seen.new part.now
        × (length part.now ≢ 0)) }
{
    let text = text_of(adv, scan, *second);
    let s = find_section(text, *at, t, u);
    *seen = s.seen;
    if let Some(p) = s.span {
        let from = p.from - 1;
        *at = p.to;
        return Some(&text[from..p.to]);
    }
    if *second {
        return None;
    }
    let r = find_section(scan, 0, t, u);
    *seen = s.seen + r.seen;
    if let Some(q) = r.span {
        let from = q.from - 1;
        *second = true;
        *at = q.to;
        return Some(&scan[from..q.to]);
    }
    None
}
