// Which of the pairs held are of the packet's device: where the first stands, where the last, and of which handles
// they are.
ghost use Rattle.std.specs.Prelude.{◌≡◌, ℕ, ◌<◌, ◌≤◌, length, take, slice_index};
ghost use Rattle.model.specs.Types.{Model, Packet, device_of};
ghost use Rattle.model.specs.Watch.{holds};
ghost use Rattle.marks.specs.Marks.{flag};
ghost use Rattle.packets.specs.Starts.{Holding};
ghost use Rattle.packets.specs.Device.{Sender, NoneBelow, NoneFrom};
ghost use Rattle.model.specs.Layout.{block_size, most_monitors, most_pairs};

use state::State;

// The first of the n pairs held that is of the device; n where none is.
pub(super) fn first_of(s: &[u8], n: usize, dev: u64) -> usize
    requires { (length s.now ≡ block_size) × (n ≤ most_pairs) }
    ensures { (result ≤ n)
        × ((m : Model) (p : Packet) → Holding m s.now n → Sender p dev → NoneBelow m.pairs p result) }
{
    for i in 0..n {
        if super::key_at(s, i) / 256 == dev {
            return i;
        }
    }
    n
}

// The index behind the last of the n pairs held that is of the device, not below an index: that index where none is.
pub(super) fn end_of(s: &[u8], from: usize, n: usize, dev: u64) -> usize
    requires { (length s.now ≡ block_size) × (from ≤ n) × (n ≤ most_pairs) }
    ensures { (from ≤ result) × (result ≤ n)
        × ((m : Model) (p : Packet) → Holding m s.now n → Sender p dev → NoneFrom m.pairs p result) }
{
    for i in (from..n).rev() {
        if super::key_at(s, i) / 256 == dev {
            return i + 1;
        }
    }
    from
}

// For each handle 1 where the pair of it and the device is among the pairs from one index to another, else 0.
pub(super) fn held_in(s: &[u8], from: usize, to: usize, dev: u64) -> [u8; State::MONITORS]
    requires { (length s.now ≡ block_size) × (from ≤ to) × (to ≤ most_pairs) }
    ensures { (length result ≡ most_monitors)
        × ((m : Model) (p : Packet) (n : ℕ) → Holding m s.now n → Sender p dev → to ≤ n
        → NoneBelow m.pairs p from → (h : ℕ) → h < most_monitors
        → slice_index result h ≡ flag (holds (take to m.pairs) h (device_of p))) }
{
    let mut r = [0u8; State::MONITORS];
    for i in from..to {
        let key = super::key_at(s, i);
        let h = (key % 256) as usize;
        if (key / 256 == dev) & (h < State::MONITORS) {
            r[h] = 1;
        }
    }
    r
}
