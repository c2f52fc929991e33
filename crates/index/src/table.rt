// The table of entries of the index: searched, and filled from the pairs one by one (document 02, T-02).
ghost use Rattle.std.specs.Prelude.{ℕ, ◌+◌, ◌*◌, ◌≤◌, ◌<◌, ◌≡◌, List, ◌++◌, length, take};
ghost use Rattle.laws.specs.Rows.{rows};
ghost use Rattle.octets.specs.Little.{little, octets_of, value};
ghost use Rattle.model.specs.Layout.{most_pairs, pair_size, pairs_size};
ghost use Rattle.wholes.specs.Layout.{entries_size, entry_size};
ghost use Rattle.wholes.specs.Index.{IndexEntry, bit_of, noted, mask_in};
ghost use Rattle.wholes.specs.Sizes.{Seven};
ghost use Rattle.index.specs.Table.{place_in, Tabled, with_entry, with_bit};
ghost use Rattle.index.specs.Seen.{marks, mark_of, words, Kept};

use super::Whole;
use state::State;

// Above every device's number: 7 octets.
const DEVICES: u64 = 72057594037927936;

// A device has one of 256 marks. Those that were seen are bits of so many numbers.
pub(super) const MARKS: usize = 4;

// The device of entry j, as a number.
pub(super) fn device_at(table: &[u8], j: usize) -> u64
    requires { (length table.now ≡ entries_size) × (j < most_pairs) }
    ensures { result ≡ little 7 table.now (entry_size * j) }
{
    let from = Whole::ENTRY * j;
    let to = from + 8;
    octets::get64(&table[from..to], 0) % DEVICES
}

// The place of a device among the first k entries, k where it has none.
pub(super) fn place(table: &[u8], k: usize, dev: u64) -> usize
    requires { (length table.now ≡ entries_size) × (k ≤ most_pairs) }
    ensures { (result ≤ k) × (result ≡ place_in dev (take k (rows entry_size most_pairs table.now))) }
{
    for j in 0..k {
        if device_at(table, j) == dev {
            return j;
        }
    }
    k
}

// The mask of the first of k entries that is a device's, 0 where it has none.
pub(super) fn mask_of(table: &[u8], k: usize, dev: u64) -> u16
    requires { (length table.now ≡ entries_size) × (k ≤ most_pairs) }
    ensures { (d : List ℕ) → Seven d → dev ≡ value d
        → result ≡ mask_in d (take k (rows entry_size most_pairs table.now)) }
{
    let j = place(table, k, dev);
    if j == k {
        return 0;
    }
    octets::get16(table, Whole::ENTRY * j + Whole::MASK_AT)
}

// The bit of a handle in a mask.
pub(super) fn bit_of(h: u8) -> u16
    ensures { result ≡ bit_of h }
{
    if h < State::HANDLES {
        return 1u16 << h;
    }
    0
}

// The row of an entry: a device, and a mask. It is lent alone, so that its end need not be asked for.
fn put_row(row: &mut [u8], dev: u64, mask: u16)
    requires { (length row.old ≡ entry_size) × (dev < 72057594037927936) }
    ensures { (d : List ℕ) → Seven d → dev ≡ value d → row.new ≡ d ++ octets_of 2 mask }
{
    let low = (mask % 256) as u64;
    let high = (mask / 256 % 256) as u8;
    octets::put64(row, 0, dev + DEVICES * low);
    octets::put8(row, 8, high);
}

// An entry for a device, with one handle.
fn put_entry(table: &mut [u8], k: usize, dev: u64, bit: u16)
    requires { (length table.old ≡ entries_size) × (k < most_pairs) × (dev < 72057594037927936) }
    ensures { (es : List IndexEntry) (d : List ℕ) → Tabled es k table.old → Seven d → dev ≡ value d
        → Tabled (with_entry es d bit) (k + 1) table.new }
{
    let from = Whole::ENTRY * k;
    let to = from + Whole::ENTRY;
    put_row(&mut table[from..to], dev, bit);
}

// A handle more in entry j.
fn put_bit(table: &mut [u8], j: usize, bit: u16)
    requires { (length table.old ≡ entries_size) × (j < most_pairs) }
    ensures { (es : List IndexEntry) (k : ℕ) → Tabled es k table.old → j < k
        → Tabled (with_bit es j bit) k table.new }
{
    let at = Whole::ENTRY * j + Whole::MASK_AT;
    let mask = octets::get16(table, at);
    octets::put16(table, at, mask | bit);
}

// A pair noted in the table of k entries: its handle in its device's entry, or in a new one behind the others.
// Answers how many there are.
fn note(table: &mut [u8], k: usize, dev: u64, h: u8) -> usize
    requires { (length table.old ≡ entries_size) × (k < most_pairs) × (dev < 72057594037927936) }
    ensures { (result ≤ k + 1)
        × ((es : List IndexEntry) (d : List ℕ) → Tabled es k table.old → Seven d → dev ≡ value d
        → Tabled (noted d h es) result table.new) }
{
    let j = place(table, k, dev);
    let bit = bit_of(h);
    if j == k {
        put_entry(table, k, dev, bit);
        return k + 1;
    }
    put_bit(table, j, bit);
    k
}

// The mark of a device: its address' lowest octet.
pub(super) fn mark_of(dev: u64) -> usize
    ensures { (result ≡ mark_of dev) × (result < marks) }
{
    (dev / 256 % 256) as usize
}

// The same by the marks of the entries' devices: a device without a mark has no entry, and none is searched for.
pub(super) fn note_marked(table: &mut [u8], seen: &mut [u64], k: usize, dev: u64, h: u8) -> usize
    requires { (length table.old ≡ entries_size) × (length seen.old ≡ words) × (k < most_pairs)
        × (dev < 72057594037927936) }
    ensures { (result ≤ k + 1)
        × ((es : List IndexEntry) (d : List ℕ) → Kept es k table.old seen.old → Seven d
        → dev ≡ value d → Kept (noted d h es) result table.new seen.new) }
{
    let m = mark_of(dev);
    let w = m / 64;
    let place = (m % 64) as u32;
    if (seen[w] >> place) % 2 == 0 {
        seen[w] = seen[w] | (1u64 << place);
        put_entry(table, k, dev, bit_of(h));
        return k + 1;
    }
    note(table, k, dev, h)
}

// The key of pair i: its handle and its device.
pub(super) fn key_at(pairs: &[u8], i: usize) -> u64
    requires { (length pairs.now ≡ pairs_size) × (i < most_pairs) }
    ensures { result ≡ little 8 pairs.now (pair_size * i) }
{
    let from = State::PAIR_ROW * i;
    let to = from + State::KEY;
    octets::get64(&pairs[from..to], 0)
}
