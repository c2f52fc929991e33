// What the kept frames say of one pair under watch: the start is packet number k, its monitor was added by frame
// number a, and n frames are looked at.
ghost use Rattle.std.specs.Prelude.{◌≡◌, ℕ, ◌+◌, ◌-◌, ◌<◌, ◌≤◌, ◌&&◌};
ghost use Rattle.model.specs.Levels;
ghost use Rattle.model.specs.Monitors;
ghost use Rattle.model.specs.Monitors.{good, run_of, sifts};
ghost use Rattle.pasts.specs.Pair;
ghost use Rattle.pasts.specs.Pair.{matching_packets, kept_in, last_reason, silent_in, stretch, ticks_among, window, window_ticks};
ghost use Rattle.twin.specs.Table.{after};
ghost use Rattle.twin.specs.Hears.{Formed, Start, start_of};
ghost use Rattle.twin.specs.Silent.{Looks, refreshes};
ghost use Rattle.twin.specs.Numbered.{Added, Follows, May, Maybe, Sent, Tells, mon_at, numbered, packet_at};
ghost use Rattle.twin.specs.Gathered.{Gathers};
ghost use Rattle.twin.specs.Reasons.{reasons};
ghost use Rattle.twins.specs.Twin.{most_kept};
ghost use Rattle.laws.specs.Tests.{pick};

use super::{heard, kept};

// Whether frame i is a good packet of the pair.
fn is_good(t: &[u8], a: usize, k: usize, i: usize) -> bool
    requires { Start t.now a k × Formed t.now i }
    ensures { result ≡ refreshes t.now a k i }
{
    if !heard::is_heard(t, a, k, i) {
        return false;
    }
    let low = heard::params_of(t, a);
    state::level_of(low[2]) < state::level_of(kept::rssi_at(t, i))
}

// The ticks since a good packet, or since the start.
pub(super) fn silent(t: &[u8], a: usize, k: usize, n: usize) -> u16
    requires { Looks t.now a k n }
    ensures { (h : ℕ) → result ≡ silent_in (start_of t.now h a k) (after t.now k (n - k)) }
{
    let mut c = 0u16;
    for i in (k..n).rev() {
        if is_good(t, a, k, i) {
            return c;
        }
        if kept::is_tick(t, i) {
            c += 1;
        }
    }
    c
}

// The RSSI of the latest packet heard, the start's where none was since.
pub(super) fn kept_rssi(t: &[u8], a: usize, k: usize, n: usize) -> u8
    requires { Looks t.now a k n }
    ensures { (h : ℕ) → result ≡ kept_in (start_of t.now h a k) (after t.now k (n - k)) }
{
    for i in (k..n).rev() {
        if heard::is_heard(t, a, k, i) {
            return kept::rssi_at(t, i);
        }
    }
    kept::rssi_at(t, k - 1)
}

// The ticks that end a watch.
pub(super) fn run_of(t: &[u8], a: usize) -> u16
    requires { Added t.now a }
    ensures { result ≡ run_of (mon_at t.now a) }
{
    heard::params_of(t, a)[3] as u16 * 10
}

// The ticks since the start.
fn ticks(t: &[u8], k: usize, n: usize) -> usize
    requires { Follows t.now k n }
    ensures { result ≡ ticks_among (after t.now k (n - k)) }
{
    let mut c = 0;
    for i in k..n {
        if kept::is_tick(t, i) {
            c += 1;
        }
    }
    c
}

// Whether a monitor has windows.
pub(super) fn windowed(t: &[u8], a: usize) -> bool
    requires { Added t.now a }
    ensures { result ≡ Monitors.windowed (mon_at t.now a) }
{
    let p = heard::params_of(t, a)[4];
    (1 <= p) & (p <= 254)
}

// The ticks in the window: each P-th tick since the start closes one.
pub(super) fn phase(t: &[u8], a: usize, k: usize, n: usize) -> usize
    requires { Looks t.now a k n }
    ensures { ((h : ℕ) → result ≡ window_ticks (start_of t.now h a k) (after t.now k (n - k)))
        × (result < 254) }
{
    if !windowed(t, a) {
        return 0;
    }
    ticks(t, k, n) % octets::wide(heard::params_of(t, a)[4])
}

// Where the last frames begin that have so many ticks: behind the tick before them.
fn behind_tick(t: &[u8], k: usize, n: usize, last: usize) -> usize
    requires { Follows t.now k n }
    ensures { (k ≤ result) × (result ≤ n)
        × (after t.now result (n - result) ≡ stretch last (after t.now k (n - k))) }
{
    let mut left = last;
    for i in (k..n).rev() {
        if kept::is_tick(t, i) {
            if left == 0 {
                return i + 1;
            }
            left -= 1;
        }
    }
    k
}

// Where the window begins; at the end where there are no windows.
fn window_from(t: &[u8], a: usize, k: usize, n: usize) -> usize
    requires { Looks t.now a k n }
    ensures { (k ≤ result) × (result ≤ n)
        × ((h : ℕ) → matching_packets (start_of t.now h a k) (after t.now result (n - result))
        ≡ window (start_of t.now h a k) (after t.now k (n - k))) }
{
    if !windowed(t, a) {
        return n;
    }
    behind_tick(t, k, n, phase(t, a, k, n))
}

// The packets of a window, the sum of their RSSI, and the number of the latest, if there is one.
#[derive(Clone, Copy)]
pub(super) struct Window {
    pub packets: u32,
    pub sum: u64,
    pub last: Option<usize>,
}

// An RSSI octet as 8 octets of two's complement.
fn extended(rssi: u8) -> u64
    ensures { result ≡ Levels.extended rssi }
{
    if rssi < 128 {
        return rssi as u64;
    }
    18446744073709551360 + rssi as u64
}

// A window with frame i, if it is heard.
fn gathered(w: Window, t: &[u8], a: usize, k: usize, i: usize) -> Window
    requires { Start t.now a k × Formed t.now i × (w.packets ≤ i) × (i < most_kept) }
    ensures { Gathers t.now a k i w.packets w.sum w.last result.packets result.sum result.last }
{
    if !heard::is_heard(t, a, k, i) {
        return w;
    }
    Window {
        packets: w.packets + 1,
        sum: std::num::wrapping_add_u64(w.sum, extended(kept::rssi_at(t, i))),
        last: Some(i + 1),
    }
}

// The window after n frames.
pub(super) fn window_of(t: &[u8], a: usize, k: usize, n: usize) -> Window
    requires { Looks t.now a k n }
    ensures { Tells t.now a k n result.packets result.sum result.last }
{
    let mut w = Window {
        packets: 0,
        sum: 0,
        last: None,
    };
    for i in window_from(t, a, k, n)..n {
        w = gathered(w, t, a, k, i);
    }
    w
}

// The event type and the data of packet number r.
pub(super) fn event_of(t: &[u8], r: usize) -> u8
    requires { Sent t.now r }
    ensures { result ≡ (packet_at t.now r).event }
{
    kept::payload_at(t, r - 1)[0]
}

pub(super) fn data_of(t: &[u8], r: usize) -> &[u8]
    requires { Sent t.now r }
    ensures { result.now ≡ (packet_at t.now r).adv }
{
    let p = kept::payload_at(t, r - 1);
    let end = 9 + octets::wide(p[8]);
    &p[9..end]
}

// Whether packet number q has the event type and the data of packet number r, if there is one.
fn alike(t: &[u8], r: Option<usize>, q: usize) -> bool
    requires { May t.now r × Sent t.now q }
    ensures { result ≡ Pair.alike (packet_at t.now q) (numbered t.now r) }
{
    let Some(r) = r else {
        return false;
    };
    if event_of(t, r) != event_of(t, q) {
        return false;
    }
    parts::same(data_of(t, r), data_of(t, q))
}

// Whether a monitor filters duplicates.
pub(super) fn is_sifting(t: &[u8], a: usize) -> bool
    requires { Added t.now a }
    ensures { result ≡ sifts (mon_at t.now a) }
{
    heard::filtering_of(heard::params_of(t, a)) % 2 == 1
}

// Whether packet number q is a duplicate of packet number r, if there is one.
pub(super) fn duplicates(t: &[u8], a: usize, r: Option<usize>, q: usize) -> bool
    requires { Added t.now a × May t.now r × Sent t.now q }
    ensures { result
        ≡ (sifts (mon_at t.now a) && Pair.alike (packet_at t.now q) (numbered t.now r)) }
{
    if !is_sifting(t, a) {
        return false;
    }
    alike(t, r, q)
}

// Whether report filtering lets packet number q through.
pub(super) fn allows(t: &[u8], a: usize, q: usize) -> bool
    requires { Added t.now a × Sent t.now q }
    ensures { result ≡ Monitors.allows (mon_at t.now a) (packet_at t.now q).event }
{
    state::lets_through(heard::filtering_of(heard::params_of(t, a)), event_of(t, q))
}

// The start packet's number, if it is a reason for a report.
fn start_reason(t: &[u8], a: usize, k: usize) -> Option<usize>
    requires { Start t.now a k }
    ensures { result ≡ pick (Monitors.allows (mon_at t.now a) (packet_at t.now k).event) (Some k) None }
{
    if allows(t, a, k) {
        return Some(k);
    }
    None
}

// The last reason for a report after frame i, packet number r being the last before it.
fn reason_after(t: &[u8], a: usize, k: usize, r: Option<usize>, i: usize) -> Option<usize>
    requires { Start t.now a k × Formed t.now i × May t.now r × (i < most_kept) }
    ensures { result ≡ pick (reasons t.now a k r i) (Some (i + 1)) r }
{
    if !heard::is_heard(t, a, k, i) {
        return r;
    }
    if !allows(t, a, i + 1) {
        return r;
    }
    if alike(t, r, i + 1) {
        return r;
    }
    Some(i + 1)
}

// The number of the last packet that was a reason for a report, if there is one.
pub(super) fn last_reason(t: &[u8], a: usize, k: usize, n: usize) -> Option<usize>
    requires { Looks t.now a k n }
    ensures { Maybe t.now n result
        × ((h : ℕ) → numbered t.now result
        ≡ last_reason (start_of t.now h a k)
        (matching_packets (start_of t.now h a k) (after t.now k (n - k)))) }
{
    let mut r = start_reason(t, a, k);
    for i in k..n {
        r = reason_after(t, a, k, r, i);
    }
    r
}
