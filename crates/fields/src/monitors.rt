// A monitor's fields in words: thresholds, interval, sampling period, condition; those of version 2.
ghost use Rattle.std.specs.Prelude.{◌+◌, ◌-◌, ◌≤◌, ◌<◌, ◌≡◌, length};
ghost use Rattle.words.specs.Says.{Says};
ghost use Rattle.fields.specs.Monitors.{pattern_text, patterns_text, unknown_text, is_uuid, single_text, condition_text, sampling_text, limits_text, bit_text, reserved_text, options_text, filtering_text, peer_of, peer_text};

use crate::{data, terms};
use words::ROOM;

// Condition types.
const PATTERNS: u8 = 1;

const UUID: u8 = 2;

const KEY: u8 = 3;

const ADDRESS: u8 = 4;

// Octets of an identity resolving key, and of an address with its type.
const KEY_SIZE: usize = 16;

const DEVICE_SIZE: usize = 7;

// Sampling periods with a meaning of their own, and the milliseconds of the others' unit.
const EVERY: u8 = 0;

const NEVER: u8 = 255;

const TICK: u64 = 100;

// A pattern, or octets that are none.
fn pattern(out: &mut [u8; ROOM], at: usize, piece: &[u8]) -> usize
    ensures { Says out.old at (pattern_text piece.now) out.new result }
{
    if data::is_whole(piece, 3) {
        let a = words::put(out, at, b", ");
        let b = terms::ad(out, a, octets::get8(piece, 1));
        let c = words::octet(out, b, b" at ", piece, 2);
        return words::hex(out, c, b" ", words::behind(piece, 3));
    }
    words::hex(out, at, b", no pattern ", piece)
}

// The patterns behind their count.
fn patterns(out: &mut [u8; ROOM], at: usize, s: &[u8]) -> usize
    ensures { Says out.old at (patterns_text s.now) out.new result }
{
    let n = s.len();
    let mut end = at;
    let mut i = 0;
    // Kept: a walk, for a pattern says itself how long it is.
    while i < n {
        let e = i + data::size(s, i);
        end = pattern(out, end, &s[i..e]);
        i = e;
    }
    end
}

// A condition that is of no known form.
fn unknown(out: &mut [u8; ROOM], at: usize, kind: u8, s: &[u8]) -> usize
    ensures { Says out.old at (unknown_text kind s.now) out.new result }
{
    let a = words::said(out, at, b", condition of type ", kind as u64);
    data::plain(out, a, s)
}

// Whether a UUID condition has the octets that its UUID type says.
fn is_uuid(s: &[u8]) -> bool
    ensures { result ≡ is_uuid s.now }
{
    let kind = octets::get8(s, 0);
    let n = s.len();
    ((kind == 1) & (n == 3)) | ((kind == 2) & (n == 5)) | ((kind == 3) & (n == 17))
}

// A condition of one of the types 2 to 4.
fn single(out: &mut [u8; ROOM], at: usize, kind: u8, s: &[u8]) -> usize
    ensures { Says out.old at (single_text kind s.now) out.new result }
{
    let n = s.len();
    let first = octets::get8(s, 0);
    let formed = is_uuid(s);
    if (kind == UUID) & formed {
        return words::uuid(out, at, b", UUID ", words::behind(s, 1));
    }
    if (kind == KEY) & (n == KEY_SIZE) {
        return words::number(out, at, b", IRK 0x", s);
    }
    if (kind == ADDRESS) & (n == DEVICE_SIZE) & (first <= 1) {
        return words::device(out, at, b", address ", words::device_of(s));
    }
    unknown(out, at, kind, s)
}

// A condition.
pub fn condition(out: &mut [u8; ROOM], at: usize, kind: u8, s: &[u8]) -> usize
    ensures { Says out.old at (condition_text kind s.now) out.new result }
{
    if (kind == PATTERNS) & (0 < s.len()) {
        let a = words::octet(out, at, b", patterns ", s, 0);
        return patterns(out, a, words::behind(s, 1));
    }
    single(out, at, kind, s)
}

// A sampling period.
fn sampling(out: &mut [u8; ROOM], at: usize, x: u8) -> usize
    ensures { Says out.old at (sampling_text x) out.new result }
{
    if x == EVERY {
        return words::put(out, at, b", sampling every packet");
    }
    if x == NEVER {
        return words::put(out, at, b", sampling none");
    }
    let a = words::said(out, at, b", sampling ", TICK * x as u64);
    words::put(out, a, b" ms")
}

// High, low, interval, sampling period: 4 octets.
pub fn limits(out: &mut [u8; ROOM], at: usize, s: &[u8]) -> usize
    ensures { Says out.old at (limits_text s.now) out.new result }
{
    let a = words::level(out, at, b" high ", s, 0);
    let b = words::level(out, a, b", low ", s, 1);
    let c = words::octet(out, b, b", interval ", s, 2);
    let d = words::put(out, c, b" s");
    sampling(out, d, octets::get8(s, 3))
}

// A bit by its word, where it is set.
fn bit(out: &mut [u8; ROOM], at: usize, x: u8, k: u8, name: &[u8]) -> usize
    requires { 0 < k }
    ensures { Says out.old at (bit_text x k name.now) out.new result }
{
    if x / k % 2 == 1 {
        return words::put(out, at, name);
    }
    at
}

// Reserved bits as a number, where one is set.
fn reserved(out: &mut [u8; ROOM], at: usize, x: u8) -> usize
    ensures { Says out.old at (reserved_text x) out.new result }
{
    let one = [x];
    if x == 0 {
        return at;
    }
    words::number(out, at, b" reserved 0x", &one)
}

// Monitor_options.
fn options(out: &mut [u8; ROOM], at: usize, x: u8) -> usize
    ensures { Says out.old at (options_text x) out.new result }
{
    if x == 0 {
        return words::put(out, at, b" none");
    }
    let a = bit(out, at, x, 1, b" peer-address");
    let b = bit(out, a, x, 2, b" peer-IRK");
    let c = bit(out, b, x, 4, b" directed-peer-address");
    let d = bit(out, c, x, 8, b" directed-peer-IRK");
    let e = bit(out, d, x, 16, b" directed");
    let f = bit(out, e, x, 32, b" any-address");
    reserved(out, f, x / 64 * 64)
}

// Advertisement_report_filtering_options.
fn filtering(out: &mut [u8; ROOM], at: usize, x: u8) -> usize
    ensures { Says out.old at (filtering_text x) out.new result }
{
    if x == 0 {
        return words::put(out, at, b" none");
    }
    let a = bit(out, at, x, 1, b" no-duplicates");
    let b = bit(out, a, x, 2, b" legacy");
    let c = bit(out, b, x, 4, b" extended");
    let d = bit(out, c, x, 8, b" directed");
    reserved(out, d, x / 16 * 16)
}

// The peer: its address type behind its address.
fn peer_of(s: &[u8]) -> u64
    ensures { result ≡ peer_of s.now }
{
    let kind = octets::get8(s, 8) as u64;
    let low = octets::get32(s, 2) as u64;
    let high = octets::get16(s, 6) as u64;
    kind + 256 * (low + 4294967296 * high)
}

// Options, report filter, peer address, peer address type, peer IRK: 25 octets.
pub fn peer(out: &mut [u8; ROOM], at: usize, s: &[u8]) -> usize
    ensures { Says out.old at (peer_text s.now) out.new result }
{
    let a = words::put(out, at, b", options");
    let b = options(out, a, octets::get8(s, 0));
    let c = words::put(out, b, b", report filter");
    let d = filtering(out, c, octets::get8(s, 1));
    let e = words::device(out, d, b", peer ", peer_of(s));
    words::number(out, e, b", peer IRK 0x", words::part(s, 9, KEY_SIZE))
}
