// Whether a table of entries is that of pairs, each of them held once (document 02, T-02). The pairs are walked with
// the entries that stand there; beside each entry a mask of the handles is gathered.
ghost use Rattle.std.specs.Prelude.{ℕ, ◌+◌, ◌*◌, ◌/◌, ◌%◌, ◌≤◌, ◌<◌, ◌≡◌, ◌&&◌, List, [], ◌∷◌, ◌++◌, map, length, take};
ghost use Rattle.laws.specs.Rows.{rows};
ghost use Rattle.laws.specs.Tests.{sames};
ghost use Rattle.octets.specs.Little.{little, value};
ghost use Rattle.model.specs.Layout.{most_pairs, pairs_size};
ghost use Rattle.wholes.specs.Layout.{entries_size, entry_size};
ghost use Rattle.wholes.specs.Index.{IndexEntry, index_of, entry_table};
ghost use Rattle.wholes.specs.Sizes.{Seven};
ghost use Rattle.index.specs.Table.{place_in};
ghost use Rattle.index.specs.Seen.{marks};
ghost use Rattle.index.specs.Slots.{Slotted};
ghost use Rattle.index.specs.Once.{once};
ghost use Rattle.index.specs.Walk.{Walked, Stepped, row_mask};
ghost use Rattle.index.specs.Compared.{Walks, pairs_of};

use super::{Whole, table};
use state::State;

// A slot for each mark of a device: the place of the first entry that has it plus 1, or 0.
const SLOTS: usize = 256;

// The place of a device among the first k entries, k where it has none; then its mark has a slot as if entry k were
// its own.
fn place_by(table: &[u8], slots: &mut [u8], k: usize, dev: u64) -> usize
    requires { (length table.now ≡ entries_size) × (length slots.old ≡ marks) × (k < most_pairs)
        × Slotted table.now k slots.old }
    ensures { (result ≤ k) × (result ≡ place_in dev (take k (rows entry_size most_pairs table.now)))
        × (result < k → Slotted table.now k slots.new)
        × (result ≡ k → little 7 table.now (entry_size * k) ≡ dev
        → Slotted table.now (k + 1) slots.new) }
{
    let m = table::mark_of(dev);
    let slot = octets::wide(slots[m]);
    if slot == 0 {
        slots[m] = (k + 1) as u8;
        return k;
    }
    let j = slot - 1;
    if table::device_at(table, j) == dev {
        return j;
    }
    table::place(table, k, dev)
}

// A pair, by its key, among the first k entries: its handle goes into the mask beside its entry, which is one of them
// or the next. Answers how many there are then; nothing where the handle is none or stands there already, and where
// the next entry is another device's.
fn note_once(table: &[u8], masks: &mut [u16], slots: &mut [u8], k: usize, key: u64) -> Option<usize>
    requires { (length table.now ≡ entries_size) × (length masks.old ≡ most_pairs) × (length slots.old ≡ marks)
        × (k < most_pairs) × Slotted table.now k slots.old }
    ensures { (es : List IndexEntry) (d : List ℕ) → Walked es k table.now masks.old slots.old
        → Seven d → key / 256 ≡ value d
        → Stepped result es d (key % 256) table.now masks.new slots.new }
{
    let h = (key % 256) as u8;
    let dev = key / 256;
    if State::HANDLES <= h {
        return None;
    }
    let bit = table::bit_of(h);
    let j = place_by(table, slots, k, dev);
    if j == k {
        if table::device_at(table, k) != dev {
            return None;
        }
        masks[k] = bit;
        return Some(k + 1);
    }
    let mask = masks[j];
    if (mask >> h) % 2 == 1 {
        return None;
    }
    masks[j] = mask | bit;
    Some(k)
}

// The first n pairs so, into lent masks. Answers how many entries they have, nothing where one stands in no such
// table.
fn walk(table: &[u8], pairs: &[u8], masks: &mut [u16], n: usize) -> Option<usize>
    requires { (length table.now ≡ entries_size) × (length pairs.now ≡ pairs_size)
        × (length masks.old ≡ most_pairs) × (n ≤ most_pairs) }
    ensures { Walks (pairs_of n pairs.now) table.now masks.new result }
{
    let mut slots = [0u8; SLOTS];
    let mut k = 0;
    for i in 0..n {
        let key = table::key_at(pairs, i);
        k = note_once(table, masks, &mut slots, k, key)?;
    }
    Some(k)
}

// Whether the masks of the first k entries are those gathered.
fn is_gathered(table: &[u8], masks: &[u16], k: usize) -> bool
    requires { (length table.now ≡ entries_size) × (length masks.now ≡ most_pairs) × (k ≤ most_pairs) }
    ensures { result
        ≡ sames (map row_mask (take k (rows entry_size most_pairs table.now))) (take k masks.now) }
{
    let mut all = true;
    for j in 0..k {
        let from = Whole::ENTRY * j;
        let to = from + Whole::ENTRY;
        let mask = octets::get16(&table[from..to], Whole::MASK_AT);
        all = all & (mask == masks[j]);
    }
    all
}

// Whether a table with its number of entries is that of the first n pairs, each of a handle that there is and held
// once.
pub(super) fn is_table(table: &[u8], count: u8, pairs: &[u8], n: usize) -> bool
    requires { (length table.now ≡ entries_size) × (length pairs.now ≡ pairs_size) × (n ≤ most_pairs) }
    ensures { result
        ≡ (sames (entry_table (index_of (pairs_of n pairs.now))
        ++ (length (index_of (pairs_of n pairs.now)) ∷ [])) (table.now ++ (count ∷ []))
        && once (pairs_of n pairs.now)) }
{
    let mut masks = [0u16; State::PAIRS];
    let Some(k) = walk(table, pairs, &mut masks, n) else {
        return false;
    };
    let same = is_gathered(table, &masks, k);
    let from = Whole::ENTRY * k;
    let behind = soundness::zeros(&table[from..]);
    (octets::wide(count) == k) & (same & behind)
}
