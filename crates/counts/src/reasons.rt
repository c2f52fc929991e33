// Whether a pair held is a reason for a packet's report (document 01, Watching, by history; document 02, T-13).
ghost use Rattle.std.specs.Prelude.{ℕ, ◌+◌, ◌-◌, ◌*◌, ◌≤◌, ◌<◌, ◌≡◌, true, List, length, get_or};
ghost use Rattle.octets.specs.Numbers.{number_at};
ghost use Rattle.model.specs.Types.{Model, Packet, device_of};
ghost use Rattle.model.specs.Frames.{packet_of};
ghost use Rattle.model.specs.Watch.{holds, is_pair};
ghost use Rattle.model.specs.Layout.{block_size, most_monitors, most_pairs, pair_size, pairs_at};
ghost use Rattle.marks.specs.Fields.{Framed};
ghost use Rattle.packets.specs.Moves.{AtPair, pair_at};
ghost use Rattle.counts.specs.Given.{Given};
ghost use Rattle.packets.specs.Starts.{Holding, Sought};
ghost use Rattle.counts.specs.Causes.{wanted, wants_for};

use state::State;

// The key of pair i.
pub(super) fn key_at(s: &[u8], i: usize) -> u64
    requires { (length s.now ≡ block_size) × (i < most_pairs) }
    ensures { result ≡ number_at 8 s.now (pairs_at + pair_size * i) }
{
    octets::get64(s, State::PAIRS_AT + State::PAIR_ROW * i)
}

// Whether pair i has that key.
fn has_key(s: &[u8], i: usize, key: u64) -> bool
    requires { (length s.now ≡ block_size) × (i < most_pairs) }
    ensures { (m : Model) (p : Packet) (h : ℕ) → AtPair m s.now i → Sought p h key
        → result ≡ is_pair h (device_of p) (pair_at m i) }
{
    key_at(s, i) == key
}

// Whether a pair with that key is among the n pairs held.
pub(super) fn is_held(s: &[u8], n: usize, key: u64) -> bool
    requires { (length s.now ≡ block_size) × (n ≤ most_pairs) }
    ensures { (m : Model) (p : Packet) (h : ℕ) → Holding m s.now n → Sought p h key
        → result ≡ holds m.pairs h (device_of p) }
{
    (0..n).any(|i| has_key(s, i, key))
}

// Whether pair i has that key and is a reason for the packet's report.
fn is_own_reason(s: &[u8], i: usize, key: u64, a: u8, payload: &[u8]) -> bool
    requires { (length s.now ≡ block_size) × (i < most_pairs) × Framed payload.now }
    ensures { (m : Model) (h dev : ℕ) (acts : List ℕ) → AtPair m s.now i
        → Given m.mons (packet_of payload.now) acts dev → h < most_monitors → key ≡ h + 256 * dev
        → a ≡ get_or acts h 0 → result ≡ wants_for m (packet_of payload.now) h (pair_at m i) }
{
    if key_at(s, i) != key {
        return false;
    }
    packets::reasons::is_reason(s, i, a, payload)
}

// Whether a pair with that key is a reason for the packet's report.
pub(super) fn is_wanted(s: &[u8], n: usize, key: u64, a: u8, payload: &[u8]) -> bool
    requires { (length s.now ≡ block_size) × (n ≤ most_pairs) × Framed payload.now }
    ensures { (m : Model) (h dev : ℕ) (acts : List ℕ) → Holding m s.now n
        → Given m.mons (packet_of payload.now) acts dev → h < most_monitors → key ≡ h + 256 * dev
        → a ≡ get_or acts h 0 → result ≡ wanted m (packet_of payload.now) h }
{
    (0..n).any(|i| is_own_reason(s, i, key, a, payload))
}
