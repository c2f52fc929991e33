// Monitors with a key (document 02, T-03): which of those that are asked resolve a private address. The cipher runs
// once a key.
ghost use Rattle.std.specs.Prelude.{◌+◌, ◌<◌, ◌≡◌, true, length, get_or, drop, IfSome};
ghost use Rattle.laws.specs.Rows.{row};
ghost use Rattle.model.specs.Frames.{packet_of};
ghost use Rattle.model.specs.Monitors.{meets_condition};
ghost use Rattle.model.specs.Image.{monitor_in};
ghost use Rattle.marks.specs.Fields.{Framed};
ghost use Rattle.marks.specs.Monitors.{Alike};
ghost use Rattle.marks.specs.Asked.{asked_of};
ghost use Rattle.marks.specs.Keyed.{private_of, KeyAt, Keyed};
ghost use Rattle.model.specs.Layout.{block_size, monitor_size, monitors_at, most_monitors};

use super::asks;
use state::State;

// Whether the row of handle j is in use and has the type and the condition of that of h.
fn same_condition(s: &[u8], j: usize, h: usize) -> bool
    requires { (length s.now ≡ block_size) × (j < most_monitors) × (h < most_monitors) }
    ensures { result ≡ true → Alike s.now j h }
{
    let a = State::MONITORS_AT + State::MONITOR_ROW * j;
    let b = State::MONITORS_AT + State::MONITOR_ROW * h;
    if s[a + State::INTERVAL_AT] == 0 {
        return false;
    }
    if s[a + State::TYPE_AT] != s[b + State::TYPE_AT] {
        return false;
    }
    if s[a + State::CONDITION_AT] != s[b + State::CONDITION_AT] {
        return false;
    }
    let n = octets::at_most(s[a + State::CONDITION_LENGTH_AT], State::CONDITION_ROOM);
    let m = octets::at_most(s[b + State::CONDITION_LENGTH_AT], State::CONDITION_ROOM);
    let from = a + State::CONDITION_AT;
    let begin = b + State::CONDITION_AT;
    parts::same(&s[from..from + n], &s[begin..begin + m])
}

// The first handle before h that is asked and has the type and the condition of h.
fn first_alike(s: &[u8], held: &[u8], reach: u16, h: usize) -> Option<usize>
    requires { (length s.now ≡ block_size) × (length held.now ≡ most_monitors) × (h < most_monitors) }
    ensures { IfSome result
        (λ j. (j < h) × (get_or (asked_of held.now s.now reach) j 0 ≡ 0 → ⊥) × Alike s.now j h) }
{
    for j in 0..h {
        if asks::ask_at(s, j, held[j], reach) {
            if same_condition(s, j, h) {
                return Some(j);
            }
        }
    }
    None
}

// Whether a random address is resolved by the key at a handle.
fn resolved_at(s: &[u8], h: usize, payload: &[u8]) -> bool
    requires { (length s.now ≡ block_size) × (h < most_monitors) × Framed payload.now
        × (private_of payload.now ≡ true) × KeyAt s.now h }
    ensures { result
        ≡ meets_condition (monitor_in (row monitor_size h (drop monitors_at s.now))).1
        (packet_of payload.now) }
{
    let at = State::MONITORS_AT + State::MONITOR_ROW * h;
    let from = at + State::CONDITION_AT;
    let to = from + octets::at_most(s[at + State::CONDITION_LENGTH_AT], State::CONDITION_ROOM);
    resolve::resolves(&s[from..to], &payload[2..8])
}

// Whether the key at a handle that is asked resolves the packet's address; met has it of the keys before. What was
// found for a key is not worked out again for another handle with the same key.
fn met_key(met: &[bool], s: &[u8], held: &[u8], reach: u16, h: usize, payload: &[u8]) -> bool
    requires { (length met.now ≡ most_monitors) × (length s.now ≡ block_size) × (length held.now ≡ most_monitors)
        × (h < most_monitors)
        × Framed payload.now × (private_of payload.now ≡ true)
        × Keyed met.now s.now (asked_of held.now s.now reach) payload.now h }
    ensures { (get_or (asked_of held.now s.now reach) h 0 ≡ 0 → ⊥) → KeyAt s.now h
        → result ≡ meets_condition (monitor_in (row monitor_size h (drop monitors_at s.now))).1
        (packet_of payload.now) }
{
    if !asks::ask_at(s, h, held[h], reach) {
        return false;
    }
    let at = State::MONITORS_AT + State::MONITOR_ROW * h;
    if s[at + State::TYPE_AT] != advert::IRK {
        return false;
    }
    match first_alike(s, held, reach, h) {
        Some(j) => met[j],
        None => resolved_at(s, h, payload),
    }
}

// The same of every handle with a key that is asked.
pub(super) fn met_keys(s: &[u8], held: &[u8], reach: u16, payload: &[u8]) -> [bool; State::MONITORS]
    requires { (length s.now ≡ block_size) × (length held.now ≡ most_monitors) × Framed payload.now
        × (private_of payload.now ≡ true) }
    ensures { Keyed result s.now (asked_of held.now s.now reach) payload.now most_monitors }
{
    let mut met = [false; State::MONITORS];
    for h in 0..State::MONITORS {
        let m = met_key(&met, s, held, reach, h, payload);
        met[h] = m;
    }
    met
}
