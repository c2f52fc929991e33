// Rows of totals (document 02, T-09 and T-10): a row's totals added with every test of 64 bits, rows joined, and the
// lent table of sixteen rows, asked and changed in place.
#![tactic(auto)]

ghost use Rattle.std.specs.Prelude.{◌≡◌, true, replicate, is_some, unwrap_or};
ghost use Rattle.totals.specs.Table.{empty, table_rows, row_fits};
ghost use Rattle.totals.specs.Join.{join_of};
ghost use Rattle.totals.specs.Gains.{no_gain, wide_row, fits_in, gained_in};

// The totals of a handle: matching packets, reports caused, ticks with a device under watch, the sum of the packets'
// RSSI. The mean is the pair of the sum and the packets.
#[repr(C)]
#[derive(Clone, Copy)]
pub struct Row {
    pub packets: u64,
    pub reports: u64,
    pub ticks: u64,
    pub sum: i64,
}

impl Row {
    // The rows of a table, one for each handle.
    pub const TABLE: usize = 16;
}

// The row with no totals.
pub fn no_row() -> Row
    ensures { result ≡ empty }
{
    Row {
        packets: 0,
        reports: 0,
        ticks: 0,
        sum: 0,
    }
}

// Sixteen empty rows.
pub fn no_rows() -> [Row; Row::TABLE]
    ensures { result ≡ replicate table_rows empty }
{
    [no_row(); Row::TABLE]
}

// Two rows joined: each total added; none, refusal 12, where a total would pass 64 bits.
pub fn join(a: Row, d: Row) -> Option<Row>
    ensures fits { is_some result ≡ row_fits a d }
    ensures row { unwrap_or result empty ≡ join_of a d }
{
    Some(Row {
        packets: a.packets.checked_add(d.packets)?,
        reports: a.reports.checked_add(d.reports)?,
        ticks: a.ticks.checked_add(d.ticks)?,
        sum: a.sum.checked_add(d.sum)?,
    })
}

// What a frame adds to a handle's row: its matching packets, the reports it causes, its ticks, and the sum of the
// RSSI more 128.
#[derive(Clone, Copy)]
pub struct Gain {
    pub packets: u8,
    pub reports: u8,
    pub ticks: u8,
    pub level: u8,
}

// The gain of a handle for which a frame counts nothing.
pub fn no_gain() -> Gain
    ensures { result ≡ no_gain }
{
    Gain {
        packets: 0,
        reports: 0,
        ticks: 0,
        level: 128,
    }
}

// Sixteen of them.
pub fn no_gains() -> [Gain; Row::TABLE]
    ensures { result ≡ replicate table_rows no_gain }
{
    [no_gain(); Row::TABLE]
}

// A gain as the row that is added.
impl From<Gain> for Row {
    ghost from_gives = { λ g r. r ≡ wide_row g };

    fn from(g: Gain) -> Row {
        Row {
            packets: u64::from(g.packets),
            reports: u64::from(g.reports),
            ticks: u64::from(g.ticks),
            sum: i64::from(g.level) - 128,
        }
    }
}

// Whether sixteen rows and what the gains add stay within 64 bits, every total; of a table of another length they do
// not.
pub fn gains_fit(rows: &[Row], d: &[Gain; Row::TABLE]) -> bool
    ensures { result ≡ fits_in rows.now d.now }
{
    if rows.len() != Row::TABLE {
        return false;
    }
    for (row, gain) in rows.iter().zip(d) {
        if join(*row, Row::from(*gain)).is_none() {
            return false;
        }
    }
    true
}

// Adds sixteen gains to the lent table of sixteen rows, in place. A row whose totals would pass 64 bits is left as it
// is, and so is a table of another length.
pub fn add_gains(rows: &mut [Row], d: &[Gain; Row::TABLE])
    ensures { rows.new ≡ gained_in true rows.old d.now }
{
    if rows.len() == Row::TABLE {
        for i in 0..Row::TABLE {
            let row = rows[i];
            rows[i] = join(row, Row::from(d[i])).unwrap_or(row);
        }
    }
}
