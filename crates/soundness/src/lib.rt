// Whether a block of octets is a sound state (document 01, The image, "Sound"): in place, in bounded work, for any
// octets. The rows are laid out as `State` says.
#![tactic(auto)]

mod keys;
mod tails;
mod windows;

ghost use Rattle.std.specs.Prelude.{◌+◌, ◌≤◌, ◌<◌, ◌≡◌, length, take, get_or};
ghost use Rattle.laws.specs.Loops.{every};
ghost use Rattle.parts.specs.Parts.{is_zero};
ghost use Rattle.model.specs.Block.{sound};
ghost use Rattle.soundness.specs.Below.{all_below};
ghost use Rattle.soundness.specs.Clauses.{head_test, held_test, monitor_test, place_test};
ghost use Rattle.soundness.specs.Clauses.{monitors_test, loose_pairs_test, loose};
ghost use Rattle.soundness.specs.Fields.{seen_test, rest_test, sifts_at, added_test, form_test};
ghost use Rattle.octets.specs.Numbers.{number_at};
ghost use Rattle.model.specs.Layout.{block_size, condition_length_at, count_at, head_size, monitor_size, most_condition, most_pairs, pair_size, position_at, sampling_at};

use state::{Seconds, State, Ticks};

// Whether the settings and the condition of a row are such as 0x03 and 0x0F accept.
fn formed(r: &[u8], n: usize) -> bool
    requires { (length r.now ≡ monitor_size) × (n ≡ get_or r.now condition_length_at 0) × (n ≤ most_condition) }
    ensures { result ≡ form_test r.now }
{
    if !statuses::settings_good(r[State::HIGH_AT], r[State::LOW_AT], r[State::INTERVAL_AT]) {
        return false;
    }
    let e = State::CONDITION_AT + n;
    let form = advert::condition_form(r[State::TYPE_AT], &r[State::CONDITION_AT..e]);
    advert::status_of(form) == 0
}

// Whether a row holds what version 2 adds as 0x0F accepts it, or nothing there.
fn added_sound(r: &[u8]) -> bool
    requires { length r.now ≡ monitor_size }
    ensures { result ≡ added_test r.now }
{
    if r[State::OPTIONS_AT] == 0 {
        return tails::zeros_from(r, State::OPTIONS_AT);
    }
    statuses::is_allowed(
        &r[State::OPTIONS_AT..],
        r[State::SAMPLING_AT],
        r[State::TYPE_AT],
    )
}

// Whether a row in use stands at its handle's place, holds an accepted monitor, and has zeros behind its condition.
fn held_sound(r: &[u8], place: usize) -> bool
    requires { length r.now ≡ monitor_size }
    ensures { result ≡ held_test place r.now }
{
    let h = octets::wide(r[0]);
    let n = octets::wide(r[State::CONDITION_LENGTH_AT]);
    if State::CONDITION < n {
        return false;
    }
    let e = State::CONDITION_AT + n;
    if h != place {
        return false;
    }
    if !tails::zeros_from(&r[..State::OPTIONS_AT], e) {
        return false;
    }
    if !added_sound(r) {
        return false;
    }
    formed(r, n)
}

// Whether a monitor row is empty, or holds what it may.
fn monitor_sound(r: &[u8], place: usize) -> bool
    requires { length r.now ≡ monitor_size }
    ensures { result ≡ monitor_test place r.now }
{
    if r[State::INTERVAL_AT] == 0 {
        return tails::zeros_from(r, 0);
    }
    held_sound(r, place)
}

fn monitors_sound(s: &[u8]) -> bool
    requires { length s.now ≡ block_size }
    ensures { result ≡ monitors_test s.now }
{
    for h in 0..State::MONITORS {
        let a = State::MONITORS_AT + State::MONITOR_ROW * h;
        let e = a + State::MONITOR_ROW;
        if !monitor_sound(&s[a..e], h) {
            return false;
        }
    }
    true
}

// Whether the settings and the filter are in range, with zeros behind the prefix.
fn head_sound(s: &[u8]) -> bool
    requires { length s.now ≡ block_size }
    ensures { result ≡ head_test (take head_size s.now) }
{
    let n = octets::wide(s[State::PREFIX_LENGTH_AT]);
    if State::PREFIX < n {
        return false;
    }
    let a = State::PREFIX_AT + n;
    let behind = tails::zeros_from(&s[..State::MONITORS_AT], a);
    let opcode = octets::get16(s, State::OPCODE_AT);
    (s[State::FILTER_AT] <= 1) & (State::LEAST_OPCODE <= opcode) & behind
}

// Whether a row has an address type and an RSSI in range, and is silent for less than its monitor's interval.
fn seen_sound(r: &[u8], interval: u8) -> bool
    requires { length r.now ≡ pair_size }
    ensures { result ≡ seen_test interval r.now }
{
    let silent = Ticks(octets::get16(r, State::SILENT_AT));
    if !silent.below(Seconds(interval).ticks()) {
        return false;
    }
    if 1 < r[State::KIND_AT] {
        return false;
    }
    state::in_range(r[State::RSSI_AT])
}

// The same, its monitor's row at an index of the block. Of a window that holds nothing only the ticks are asked, and
// most hold nothing.
fn rest_sound(s: &[u8], r: &[u8], m: usize) -> bool
    requires { (m + monitor_size ≤ length s.now) × (length r.now ≡ pair_size) }
    ensures { result
        ≡ rest_test (number_at 4 s.now position_at) (get_or s.now (m + sampling_at) 0)
        (sifts_at s.now m) r.now }
{
    if windows::is_blank(r) {
        return windows::ticks_sound(s[m + State::SAMPLING_AT], r[State::TICKS_AT]);
    }
    let filtering = state::filtering_of(s[m + State::OPTIONS_AT], s[m + State::FILTERING_AT]);
    let position = octets::get32(s, State::POSITION_AT);
    windows::held_window_sound(r, position, s[m + State::SAMPLING_AT], filtering % 2 == 1)
}

// Whether the pair at a place is of a live monitor and holds what it may.
fn pair_sound(s: &[u8], i: usize) -> bool
    requires { (length s.now ≡ block_size) × (i < most_pairs) }
    ensures { result ≡ place_test s.now i }
{
    let a = State::PAIRS_AT + State::PAIR_ROW * i;
    let e = a + State::PAIR_ROW;
    let h = octets::wide(s[a]);
    if State::MONITORS <= h {
        return false;
    }
    let m = State::MONITORS_AT + State::MONITOR_ROW * h;
    seen_sound(&s[a..e], s[m + State::INTERVAL_AT]) && rest_sound(s, &s[a..e], m)
}

fn held_pairs_sound(s: &[u8], c: usize) -> bool
    requires { (length s.now ≡ block_size) × (c ≤ most_pairs) }
    ensures { result ≡ all_below (place_test s.now) c }
{
    for i in 0..c {
        if !pair_sound(s, i) {
            return false;
        }
    }
    true
}

// Whether the pairs hold what they may, with zeros behind them.
fn pairs_sound(s: &[u8]) -> bool
    requires { length s.now ≡ block_size }
    ensures { result ≡ loose_pairs_test s.now (get_or s.now count_at 0) }
{
    let c = octets::wide(s[State::COUNT_AT]);
    if State::PAIRS < c {
        return false;
    }
    let a = State::PAIRS_AT + State::PAIR_ROW * c;
    if !tails::zeros_from(&s[..State::COUNT_AT], a) {
        return false;
    }
    held_pairs_sound(s, c)
}

// Whether octets are zeros alone: eight at a time, where `parts` looks at each.
pub fn zeros(s: &[u8]) -> bool
    ensures { result ≡ every is_zero s.now }
{
    tails::zeros_from(s, 0)
}

// Whether the octets are a sound state's block, but that a pair may be held twice: where an index is compared with
// the pairs, that is told there.
pub fn is_loose(s: &[u8]) -> bool
    ensures { result ≡ loose s.now }
{
    if s.len() != State::SIZE {
        return false;
    }
    if !head_sound(s) {
        return false;
    }
    if !monitors_sound(s) {
        return false;
    }
    pairs_sound(s)
}

// Whether the octets are a sound state's block.
pub fn is_sound(s: &[u8]) -> bool
    ensures { result ≡ sound s.now }
{
    is_loose(s) && keys::are_others(s, octets::wide(s[State::COUNT_AT]))
}
