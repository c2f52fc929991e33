// Whether a condition is well formed, and whether a packet matches it (document 01, Conditions). Every match reads the
// advertisement and the scan response through one lookup, next_section, and compares octets by one function, compare.
#![tactic(auto)]

mod cost;
mod lookup;
mod patterns;

ghost use Rattle.std.specs.Prelude.{◌≡◌, ◌+◌, ◌*◌, ◌<◌, length};
ghost use Rattle.laws.specs.Loops.{some};
ghost use Rattle.advert.specs.Either.{both};
ghost use Rattle.advert.specs.Cost.{match_cost, in64};
ghost use Rattle.advert.specs.Pattern.{patterns_meet};
ghost use Rattle.advert.specs.Uuid.{lists_uuid, uuid_form, uuid_meets};
ghost use Rattle.advert.specs.Address.{address_form, address_meets};
ghost use Rattle.advert.specs.Irk.{irk_form, irk_meets};
ghost use Rattle.advert.specs.Kinds.{code_of, Decodes};
ghost use Rattle.advert.specs.Condition.{form_of, form_status, meets, well_formed};

// The condition type of an identity resolving key (document 02, T-03).
pub const IRK: u8 = 3;

// What is wrong with a condition's form: it is not as its type asks, its type is none.
#[derive(Clone, Copy, Debug, PartialEq, Eq)]
pub enum FormError {
    Malformed,
    Unknown,
}

// The types of conditions, and those of their numbers.
#[derive(Clone, Copy, Debug, PartialEq, Eq)]
enum Kind {
    Patterns,
    Uuid,
    Irk,
    Address,
}

impl TryFrom<u8> for Kind {
    type Error = FormError;

    ghost try_from_gives = { Decodes };

    fn try_from(code: u8) -> Result<Kind, FormError> {
        match code {
            1 => Ok(Kind::Patterns),
            2 => Ok(Kind::Uuid),
            IRK => Ok(Kind::Irk),
            4 => Ok(Kind::Address),
            _ => Err(FormError::Unknown),
        }
    }
}

// What is said of a packet and a pattern condition, with how many comparisons it took.
#[derive(Clone, Copy)]
pub struct Match {
    pub found: bool,
    pub comparisons: usize,
}

// Whether the list of UUIDs has this one, at a multiple of its size.
fn lists(content: &[u8], uuid: &[u8]) -> bool
    requires { 0 < length uuid.now }
    ensures { result ≡ lists_uuid uuid.now content.now }
{
    let size = uuid.len();
    let mut i = 0;
    while size <= content.len() - i {
        let c = patterns::compare(content, i, uuid);
        if c.same {
            return true;
        }
        i += size;
    }
    false
}

// Whether some section of AD type t or u, of either text, lists the UUID.
fn some_lists<'a, 'b>(adv: &'a [u8], scan: &'a [u8], t: u8, u: u8, uuid: &'b [u8]) -> bool
    requires { 0 < length uuid.now }
    ensures { result ≡ some (lists_uuid uuid.now) (both t u adv.now scan.now) }
{
    let mut second = false;
    let mut at = 0;
    let mut seen = 0;
    while let Some(part) = lookup::next_section(adv, scan, &mut second, &mut at, &mut seen, t, u) {
        if lists(&part[1..], uuid) {
            return true;
        }
        if !lookup::has_more(adv, scan, second, at) {
            return false;
        }
    }
    false
}

// Whether the condition is a UUID type and a UUID of its size.
fn uuid_form(condition: &[u8]) -> bool
    ensures { result ≡ uuid_form condition.now }
{
    if condition.len() == 0 {
        return false;
    }
    let t = condition[0];
    let n = condition.len() - 1;
    ((t == 1) & (n == 2)) | (((t == 2) & (n == 4)) | ((t == 3) & (n == 16)))
}

// Whether either text lists the condition's UUID.
fn uuid_meets<'a, 'b>(condition: &'b [u8], adv: &'a [u8], scan: &'a [u8]) -> bool
    ensures { result ≡ uuid_meets condition.now adv.now scan.now }
{
    if !uuid_form(condition) {
        return false;
    }
    let t = condition[0];
    some_lists(adv, scan, 2 * t, 2 * t + 1, &condition[1..])
}

// Whether the condition is an address type, 0 or 1, and an address.
fn address_form(condition: &[u8]) -> bool
    ensures { result ≡ address_form condition.now }
{
    if condition.len() == 0 {
        return false;
    }
    let t = condition[0];
    let n = condition.len() - 1;
    (t <= 1) & (n == 6)
}

// Whether the condition is the packet's address type and address.
fn address_meets(condition: &[u8], address_type: u8, address: &[u8]) -> bool
    ensures { result ≡ address_meets condition.now address_type address.now }
{
    if condition.len() == 0 {
        return false;
    }
    if condition.len() - 1 != address.len() {
        return false;
    }
    let t = condition[0];
    let c = patterns::compare(condition, 1, address);
    (t == address_type) & c.same
}

// Whether the condition is a key.
fn irk_form(condition: &[u8]) -> bool
    ensures { result ≡ irk_form condition.now }
{
    condition.len() == resolve::KEY
}

// Whether a packet's address is a random one that the key resolves. For a public one no cipher runs.
fn irk_meets(condition: &[u8], address_type: u8, address: &[u8]) -> bool
    ensures { result ≡ irk_meets condition.now address_type address.now }
{
    if address_type != 1 {
        return false;
    }
    resolve::resolves(condition, address)
}

// The status of each answer on a condition's form; 0 is success.
#[tactic(auto, unfolding(crate::specs::Condition::form_status))]
pub fn status_of(form: Result<(), FormError>) -> u8
    ensures { result ≡ form_status form }
{
    match form {
        Ok(()) => 0,
        Err(FormError::Malformed) => 0x12,
        Err(FormError::Unknown) => 0x12,
    }
}

// What is said of the form of a condition of that type.
pub fn condition_form(kind: u8, condition: &[u8]) -> Result<(), FormError>
    ensures { result ≡ form_of kind condition.now }
{
    match Kind::try_from(kind) {
        Err(e) => Err(e),
        Ok(k) => {
            if well_formed(k, condition) {
                return Ok(());
            }
            Err(FormError::Malformed)
        }
    }
}

// Whether the condition has the form of its type.
fn well_formed(kind: Kind, condition: &[u8]) -> bool
    ensures { result ≡ well_formed (code_of kind) condition.now }
{
    match kind {
        Kind::Patterns => patterns::patterns_form(condition),
        Kind::Uuid => uuid_form(condition),
        Kind::Irk => irk_form(condition),
        Kind::Address => address_form(condition),
    }
}

// Whether a packet from that address with that advertisement and scan response matches a condition of that type. A
// packet without a scan response has an empty one here.
pub fn match_packet<'a, 'b, 'c>(
    kind: u8,
    condition: &'b [u8],
    address_type: u8,
    address: &'c [u8],
    adv: &'a [u8],
    scan: &'a [u8],
) -> bool
    ensures { result
        ≡ meets kind condition.now address_type address.now adv.now
        scan.now }
{
    match Kind::try_from(kind) {
        Ok(Kind::Patterns) => patterns::patterns_meet(condition, adv, scan),
        Ok(Kind::Uuid) => uuid_meets(condition, adv, scan),
        Ok(Kind::Irk) => irk_meets(condition, address_type, address),
        Ok(Kind::Address) => address_meets(condition, address_type, address),
        Err(_) => false,
    }
}

// Whether either text matches some pattern of the condition. The count is the remainder by 2 to the 64th: no
// condition that is kept and no packet comes near it.
pub fn match_cost<'a, 'b>(condition: &'b [u8], adv: &'a [u8], scan: &'a [u8]) -> Match
    ensures { (result.found ≡ patterns_meet condition.now adv.now scan.now)
        × (result.comparisons ≡ in64 (match_cost condition.now adv.now scan.now)) }
{
    let mut count = 0;
    let mut i = 1;
    // Kept: a walk, whose step is the length that stands in the condition.
    while i < condition.len() {
        match lookup::part_end(condition, i, 3) {
            None => {
                return Match {
                    found: false,
                    comparisons: count,
                };
            }
            Some(e) => {
                let b = i + 1;
                let m = cost::pattern_cost(&condition[b..e], adv, scan);
                count = std::num::wrapping_add_usize(count, m.comparisons);
                if m.found {
                    return Match {
                        found: true,
                        comparisons: count,
                    };
                }
                i = e;
            }
        }
    }
    Match {
        found: false,
        comparisons: count,
    }
}
