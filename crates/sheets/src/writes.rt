// A text of rows written into a lent buffer, each piece from an index on; the index behind it is given.
ghost use Rattle.std.specs.Prelude.{◌+◌, ◌≤◌, ◌≡◌, [], length};
ghost use Rattle.laws.specs.Put.{put};
ghost use Rattle.sheets.specs.Sheet.{row_then, sheet_text, room, line_octets};
ghost use Rattle.sheets.specs.Writing.{count_then, sum_then};

use crate::marks::{COMMA, LF, MINUS};
use totals::Row;

// Octets of the line of names.
const NAMES: usize = 33;

// A number, and an octet behind it.
fn put_count(out: &mut [u8], at: usize, n: u64, end: u8) -> usize
    requires { at + 21 ≤ length out.old }
    ensures { (result ≡ at + length (count_then n end))
        × (out.new ≡ put out.old at (count_then n end)) }
{
    let mut digits = [0u8; decimals::MOST];
    let k = decimals::write(&mut digits, n, decimals::MOST - 1);
    parts::copy(out, at, &digits[..k]);
    let e = at + k;
    out[e] = end;
    e + 1
}

// A sum, and an LF behind it.
fn put_sum(out: &mut [u8], at: usize, sum: i64) -> usize
    requires { at + 22 ≤ length out.old }
    ensures { (result ≡ at + length (sum_then sum)) × (out.new ≡ put out.old at (sum_then sum)) }
{
    let n = crate::size_of(sum);
    if sum < 0 {
        out[at] = MINUS;
        return put_count(out, at + 1, n, LF);
    }
    put_count(out, at, n, LF)
}

// The line of a handle's row.
fn put_row(out: &mut [u8], at: usize, h: u64, r: Row) -> usize
    requires { at + line_octets ≤ length out.old }
    ensures { (result ≡ at + length (row_then h r []))
        × (out.new ≡ put out.old at (row_then h r [])) }
{
    let a = put_count(out, at, h, COMMA);
    let b = put_count(out, a, r.packets, COMMA);
    let c = put_count(out, b, r.reports, COMMA);
    let d = put_count(out, c, r.ticks, COMMA);
    put_sum(out, d, r.sum)
}

// The line of names and the rows' lines, at the start.
pub(super) fn put_rows(out: &mut [u8], rows: [Row; Row::TABLE]) -> usize
    requires { room ≤ length out.old }
    ensures { (result ≡ length (sheet_text rows)) × (out.new ≡ put out.old 0 (sheet_text rows)) }
{
    parts::copy(out, 0, b"handle,packets,reports,ticks,sum\n");
    let mut at = NAMES;
    for h in 0..Row::TABLE {
        let r = rows[h];
        at = put_row(out, at, h as u64, r);
    }
    at
}
