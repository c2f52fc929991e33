// Numbers in decimal: written with no zero in front, and read (document 01, A session in full: "the refusal number in
// decimal").
#![tactic(auto)]

ghost use Rattle.std.specs.Prelude.{◌+◌, ◌-◌, ◌*◌, ◌/◌, ◌%◌, ◌≤◌, ◌<◌, ◌≡◌, length};
ghost use Rattle.laws.specs.Put.{put};
ghost use Rattle.decimals.specs.Decimals.{decimal_in, written_in, grown as grown_by, grown_from, number_of, number_from};

// Digits of the greatest number of 64 bits.
pub const MOST: usize = 20;

const ZERO: u8 = b'0';

const NINE: u8 = b'9';

// The greatest number that is read: that of 32 bits.
const LAST: u64 = 0xFFFFFFFF;

// A digit.
fn digit(n: u64) -> u8
    ensures { result ≡ 48 + n % 10 }
{
    48 + (n % 10) as u8
}

// A number in decimal, of at most k + 1 digits, at the text's start. The number of digits.
fn put_digits(text: &mut [u8], n: u64, k: usize) -> usize
    requires { k < length text.old }
    ensures { (result ≡ length (decimal_in k n)) × (text.new ≡ put text.old 0 (decimal_in k n)) }
{
    if k == 0 {
        text[0] = digit(n);
        return 1;
    }
    if n <= 9 {
        text[0] = digit(n);
        return 1;
    }
    let e = put_digits(text, n / 10, k - 1);
    text[e] = digit(n);
    e + 1
}

// Writes the last k + 1 digits of a number at the text's start, no zero in front: nothing where the text has no room
// for so many. How many were written.
pub fn write(text: &mut [u8], n: u64, k: usize) -> usize
    ensures { (result ≡ length (written_in k n (length text.old)))
        × (text.new ≡ put text.old 0 (written_in k n (length text.old))) }
{
    if k < text.len() {
        return put_digits(text, n, k);
    }
    0
}

// A value and a further digit: above every number that is read where that is none, or the value was.
fn grown(value: u64, c: u8) -> u64
    ensures { result ≡ grown_by value c }
{
    if c < ZERO {
        return u64::MAX;
    }
    if c > NINE {
        return u64::MAX;
    }
    if value > LAST {
        return u64::MAX;
    }
    value * 10 + u64::from(c - ZERO)
}

// The value of a word's digits.
fn value_of(word: &[u8]) -> u64
    ensures { result ≡ grown_from 0 word.now }
{
    let mut value: u64 = 0;
    for c in word {
        value = grown(value, *c);
    }
    value
}

// The number by a value.
fn number_of(value: u64) -> Option<u32>
    ensures { result ≡ number_from value }
{
    if value > LAST {
        return None;
    }
    Some(value as u32)
}

// The number of 32 bits that a word is: digits alone, one or more.
pub fn read(word: &[u8]) -> Option<u32>
    ensures { result ≡ number_of word.now }
{
    if word.len() == 0 {
        return None;
    }
    number_of(value_of(word))
}
