// The text of sixteen rows as `month --csv` writes it, and such a text read back (document 02, T-10): the rows whose
// text it is, octet for octet, and nothing else.
#![tactic(auto)]

mod marks;
mod reads;
mod writes;

ghost use Rattle.std.specs.Prelude.{◌≡◌, nat_abs, length, unwrap_or};
ghost use Rattle.laws.specs.Put.{put};
ghost use Rattle.sheets.specs.Joins.{joined};
ghost use Rattle.sheets.specs.Sites.{are_sites};
ghost use Rattle.sheets.specs.Sheet.{read_sheet, written_in};

use totals::Row;

// Octets enough for the text of any sixteen rows.
pub const ROOM: usize = 1729;

// How far a sum is from zero.
pub fn size_of(sum: i64) -> u64
    ensures { result ≡ nat_abs sum }
{
    sum.unsigned_abs()
}

// Writes the text of sixteen rows at the start of out, nothing where out has fewer octets than ROOM. How many were
// written.
pub fn write(out: &mut [u8], rows: [Row; Row::TABLE]) -> usize
    ensures { (result ≡ length (written_in (length out.old) rows))
        × (out.new ≡ put out.old 0 (written_in (length out.old) rows)) }
{
    if out.len() < ROOM {
        return 0;
    }
    writes::put_rows(out, rows)
}

// The rows of a text that `write` wrote, none of any other. The rows that its words hold are written again: it is read
// where this gives the text.
pub fn read(text: &[u8]) -> Option<[Row; Row::TABLE]>
    ensures { result ≡ read_sheet text.now }
{
    let rows = reads::held_rows(text);
    let mut again = [0u8; ROOM];
    let n = write(&mut again, rows);
    if parts::same(&again[..n], text) {
        Some(rows)
    } else {
        None
    }
}

// The rows of two sites joined, handle by handle; the first handle whose join is refused, where one is.
pub fn join(t: [Row; Row::TABLE], d: [Row; Row::TABLE]) -> Result<[Row; Row::TABLE], usize>
    ensures { result ≡ joined t d }
{
    let mut rows = t;
    for h in 0..Row::TABLE {
        let Some(row) = totals::join(t[h], d[h]) else {
            return Err(h);
        };
        rows[h] = row;
    }
    Ok(rows)
}

// Whether words of a command name sites: from the first on pairs of an image and a journal up to the mark `--rows`,
// where it is among them, and a file behind it.
pub fn are_sites(first: usize, mark: Option<usize>, words: usize) -> bool
    ensures { result ≡ are_sites first (unwrap_or mark words) words }
{
    let end = mark.unwrap_or(words);
    if end < first {
        return false;
    }
    if (end - first) % 2 != 0 {
        return false;
    }
    if end < words {
        return 1 < words - end;
    }
    first < words
}
