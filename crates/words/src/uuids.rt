// The name of a UUID in brackets, where it has one: 16-bit UUIDs by their two octets, and those of 4 or 16 octets
// that are one of them widened.
ghost use Rattle.std.specs.Prelude.{ℕ, ◌≡◌};
ghost use Rattle.names.specs.Names.{name_in};
ghost use Rattle.names.specs.Uuids.{uuid_name};
ghost use Rattle.words.specs.Says.{Says};
ghost use Rattle.words.specs.Uuids.{is_wide, is_based, short_of, bracketed, behind_uuid};

use crate::{ROOM, tables};

// The Bluetooth base but for its first group, least significant octet first.
const BASE: [u8; 12] = *b"\xFB\x34\x9B\x5F\x80\x00\x00\x80\x00\x10\x00\x00";

// Octets of a UUID: of 16, of 32 and of 128 bits.
const SHORT: usize = 2;

const WIDE: usize = 4;

const FULL: usize = 16;

// The more significant octets that have a table.
const SERVICE: u8 = 0x18;

const MEMBER_FC: u8 = 0xFC;

const MEMBER_FD: u8 = 0xFD;

const MEMBER_FE: u8 = 0xFE;

const STANDARD: u8 = 0xFF;

// Whether 4 octets are a UUID of 16 bits widened.
fn is_wide(s: &[u8]) -> bool
    ensures { result ≡ is_wide s.now }
{
    (s.len() == WIDE) & (octets::get16(s, 2) == 0)
}

// Whether 16 octets are one, on the Bluetooth base.
fn is_based(s: &[u8]) -> bool
    ensures { result ≡ is_based s.now }
{
    let same = parts::same(crate::part(s, 0, BASE.len()), &BASE);
    (s.len() == FULL) & same & (octets::get16(s, 14) == 0)
}

// The 2 octets of a UUID that has them; none of any other.
fn short(s: &[u8]) -> &[u8]
    ensures { result.now ≡ short_of s.now }
{
    if s.len() == SHORT {
        return s;
    }
    if is_wide(s) {
        return crate::part(s, 0, SHORT);
    }
    if is_based(s) {
        return crate::part(s, BASE.len(), SHORT);
    }
    &s[..0]
}

// A number's name in a table, in brackets.
fn in_brackets(out: &mut [u8; ROOM], at: usize, table: &[u8], x: u8) -> usize
    ensures { Says out.old at (bracketed (name_in table.now x)) out.new result }
{
    let known = names::find(table, x);
    if known.len() == 0 {
        return at;
    }
    let a = crate::put(out, at, b" (");
    let b = crate::put(out, a, known);
    crate::put(out, b, b")")
}

// The names of the UUIDs with a more significant octet.
fn names_of(high: u8) -> &'static [u8]
    ensures { (low : ℕ) → name_in result.now low ≡ uuid_name high low }
{
    match high {
        SERVICE => &tables::SERVICES,
        MEMBER_FC => &tables::MEMBERS_FC,
        MEMBER_FD => &tables::MEMBERS_FD,
        MEMBER_FE => &tables::MEMBERS_FE,
        STANDARD => &tables::STANDARDS,
        _ => &[],
    }
}

// The name of a 16-bit UUID by its two octets.
fn by_octets(out: &mut [u8; ROOM], at: usize, high: u8, low: u8) -> usize
    ensures { Says out.old at (bracketed (uuid_name high low)) out.new result }
{
    in_brackets(out, at, names_of(high), low)
}

// The name behind a UUID's number.
pub(super) fn name(out: &mut [u8; ROOM], at: usize, s: &[u8]) -> usize
    ensures { Says out.old at (behind_uuid s.now) out.new result }
{
    let two = short(s);
    by_octets(out, at, octets::get8(two, 1), octets::get8(two, 0))
}
