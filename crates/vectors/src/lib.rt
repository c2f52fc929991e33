// What the programs that run vectors have in common: octets written as a line, an output that is marked before a call,
// digests of octets, and standard input read into a text.
#![tactic(auto)]

ghost use Rattle.std.specs.Prelude.{◌≡◌, fold};
ghost use Rattle.vectors.specs.Digests.{mixed, sum_of};
ghost use Rattle.vectors.specs.Numbers.{number_of};

use refusals::Refusal;

// What a lent output holds before a call; it stands there still where nothing was written.
pub const MARK: u8 = 238;

// The largest prime below 2^54: a digest is a polynomial's value modulo it.
const PRIME: u64 = 18014398509481951;

// Octets are counted modulo this.
const COUNTED: u64 = 1000000000;

// Octets as a line, at most 2,047.
pub fn show(octets: &[u8]) {
    let mut text = io::buffer();
    if lines::put_text(&mut text, 0, octets) {
        if let Some(line) = text.get(..2 * octets.len() + 1) {
            io::write_all(1, line);
        }
    }
}

// The number of a refusal as a line.
pub fn show_number(x: Refusal) {
    io::print_decimal(1, u64::from(u8::from(x)));
    io::write_all(1, b"\n");
}

// A digest and two numbers as a line.
pub fn show_digest(digest: u64, first: u64, second: u64) {
    io::print_hex(1, digest, 14);
    io::write_all(1, b" ");
    io::print_decimal(1, first);
    io::write_all(1, b" ");
    io::print_decimal(1, second);
    io::write_all(1, b"\n");
}

// Tells where some octet is no longer the mark.
pub fn show_changed(out: &[u8]) {
    if out.iter().any(|x| *x != MARK) {
        io::write_all(1, b"changed\n");
    }
}

// A digest with one number more, of which the lowest octet counts.
#[tactic(auto, unfolding(crate::specs::Digests::mixed))]
pub fn mix(d: u64, x: u64) -> u64
    ensures { result ≡ mixed d x }
{
    ((d % PRIME) * 257 + x % 256 + 1) % PRIME
}

// A digest carried on over octets.
pub fn digest(from: u64, octets: &[u8]) -> u64
    ensures { result ≡ fold mixed from octets.now }
{
    octets.iter().fold(from, |d, x| mix(d, u64::from(*x)))
}

// A count with n more.
#[tactic(auto, unfolding(crate::specs::Digests::sum_of))]
pub fn add(count: u64, n: u64) -> u64
    ensures { result ≡ sum_of count n }
{
    (count % COUNTED + n % COUNTED) % COUNTED
}

// The number of the refusal that ended a call, 0 where there is none.
pub fn number_of(stop: Result<(), Refusal>) -> u8
    ensures { result ≡ number_of stop }
{
    match stop {
        Ok(()) => 0,
        Err(x) => u8::from(x),
    }
}

// Fills a text from standard input.
pub fn fill(text: &mut [u8]) -> Option<()> {
    let n = text.len();
    if io::read_full(0, text) == n {
        return Some(());
    }
    None
}

// Fills the first n octets of a text, where it has so many.
pub fn fill_part(text: &mut [u8], n: usize) -> Option<&[u8]> {
    let part = text.get_mut(..n)?;
    fill(part)?;
    Some(part)
}
