// Rows written.
use texts::Text;
use totals::Row;

// A sum behind a word.
fn with_sum(t: Text, word: &[u8], sum: i64) -> Text {
    let a = t.with(word);
    if sum < 0 {
        return a.said(b"-", sheets::size_of(sum));
    }
    a.said(b"", sheets::size_of(sum))
}

// The rows as comma-separated values; whether they were written.
fn put_text(rt: &HostRuntime, rows: [Row; Row::TABLE]) -> bool {
    let mut text = [0u8; sheets::ROOM];
    let n = sheets::write(&mut text, rows);
    outside::put(rt, &text[..n])
}

// One row of the table; the mean is the pair of the sum and the packets.
fn row_text(h: usize, r: Row) -> Text {
    let a = Text::blank().said(b"handle ", h as u64);
    let b = a.said(b"\tpackets ", r.packets);
    let c = b.said(b"\treports ", r.reports);
    let d = c.said(b"\tticks ", r.ticks);
    let e = with_sum(d, b"\trssi sum ", r.sum);
    let f = with_sum(e, b"\tmean ", r.sum);
    f.said(b"/", r.packets).with(b"\n")
}

// Whether they were written.
pub(super) fn show(rt: &HostRuntime, rows: [Row; Row::TABLE], csv: bool) -> bool {
    if csv {
        return put_text(rt, rows);
    }
    for h in 0..Row::TABLE {
        if !shell::show(rt, row_text(h, rows[h])) {
            return false;
        }
    }
    true
}
