// The window of a pair's row: what it may hold, by its numbers and by its octets (document 01, The image, "Sound").
// Each test ends as soon as one number is out of range.
ghost use Rattle.std.specs.Prelude.{◌≡◌, length};
ghost use Rattle.soundness.specs.Code.{sum_above};
ghost use Rattle.soundness.specs.Fields.{window_test, latest_test, empty_test, blank_test, ticks_test, rest_test};
ghost use Rattle.model.specs.Layout.{pair_size};

use state::State;

// How far a window's sum, in two's complement, stands above −127 for each of its packets.
fn sum_above(sum: u64, packets: u32) -> u64
    ensures { result ≡ sum_above sum packets }
{
    sum.wrapping_add(127 * u64::from(packets))
}

// Whether a pair's window is as its monitor's sampling period and the position allow.
fn window_sound(position: u32, sampling: u8, ticks: u8, packets: u32, sum: u64) -> bool
    ensures { result ≡ window_test position sampling ticks packets sum }
{
    let runs = (1 <= sampling) & (sampling <= 254);
    if !runs {
        return (ticks == 0) & (packets == 0);
    }
    if sampling <= ticks {
        return false;
    }
    if position < packets {
        return false;
    }
    sum_above(sum, packets) <= 147 * u64::from(packets)
}

// Whether a window without packets holds none; where duplicates are filtered it may keep one for them, and event type
// 0xFF says that it does not.
fn latest_sound(sifts: bool, event: u8, n: u8) -> bool
    ensures { result ≡ latest_test sifts event n }
{
    if sifts {
        return (event <= 3) | ((event == 0xFF) & (n == 0));
    }
    (event == 0) & (n == 0)
}

// Whether a window has an event type, and without packets no sum.
fn empty_sound(sifts: bool, packets: u32, sum: u64, event: u8, n: u8) -> bool
    ensures { result ≡ empty_test sifts packets sum event n }
{
    if 1 <= packets {
        return event <= 3;
    }
    let latest = latest_sound(sifts, event, n);
    (sum == 0) & latest
}

// Whether a row's window holds nothing but its ticks: zeros behind them, but for the kept RSSI.
pub(super) fn is_blank(r: &[u8]) -> bool
    requires { length r.now ≡ pair_size }
    ensures { result ≡ blank_test r.now }
{
    if octets::get32(r, State::PACKETS_AT) != 0 {
        return false;
    }
    let sum = super::tails::zeros_from(&r[..State::RSSI_AT], State::SUM_AT);
    let latest = super::tails::zeros_from(r, State::EVENT_AT);
    sum & latest
}

// Whether the ticks of a window that holds nothing else are as its monitor's sampling period allows.
pub(super) fn ticks_sound(sampling: u8, ticks: u8) -> bool
    ensures { result ≡ ticks_test sampling ticks }
{
    if ticks == 0 {
        return true;
    }
    (ticks < sampling) & (sampling <= 254)
}

// Whether a row's window holds what it may, with its monitor's sampling period, and whether it filters duplicates.
pub(super) fn held_window_sound(r: &[u8], position: u32, sampling: u8, sifts: bool) -> bool
    requires { length r.now ≡ pair_size }
    ensures { result ≡ rest_test position sampling sifts r.now }
{
    let n = octets::wide(r[State::LENGTH_AT]);
    if State::DATA < n {
        return false;
    }
    let packets = octets::get32(r, State::PACKETS_AT);
    let sum = octets::get64(r, State::SUM_AT);
    if !window_sound(position, sampling, r[State::TICKS_AT], packets, sum) {
        return false;
    }
    if !empty_sound(sifts, packets, sum, r[State::EVENT_AT], r[State::LENGTH_AT]) {
        return false;
    }
    super::tails::zeros_from(r, State::DATA_AT + n)
}
