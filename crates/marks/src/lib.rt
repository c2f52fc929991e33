// What a packet means to each monitor of a block (document 01, Conditions, Watching, by history). The monitors are
// asked once, in handle order; what each says of the packet is kept as one octet a handle, which the loops over pairs
// and handles read.
#![tactic(auto)]

mod asks;
mod keys;
mod options;

ghost use Rattle.std.specs.Prelude.{◌+◌, ◌<◌, ◌≡◌, true, length, drop};
ghost use Rattle.laws.specs.Rows.{row};
ghost use Rattle.model.specs.Frames.{packet_of};
ghost use Rattle.marks.specs.Marks.{flag};
ghost use Rattle.marks.specs.Fields.{Framed, framed, scan_at, fits_for, marks_fit, marked};
ghost use Rattle.model.specs.Monitors.{meets_condition};
ghost use Rattle.model.specs.Image.{monitor_in};
ghost use Rattle.marks.specs.Monitors.{row_bits, met_row, met_mark};
ghost use Rattle.marks.specs.Keyed.{private_of, Told, ToldAll};
ghost use Rattle.marks.specs.Asked.{asked_of, mark_if, held_fit, marked_for};
ghost use Rattle.marks.specs.Admitted.{met_if};
ghost use Rattle.model.specs.Layout.{block_size, monitor_size, monitors_at, most_monitors};

use state::State;

// What the octet of a packet that matches has beside the tests.
pub const MATCHED: u8 = 0x40;

// What a packet that matches means to a monitor: good, in its window, strong enough for a start, reported at once,
// duplicates filtered, let through by the report filtering; its RSSI is kept.
fn row_bits(high: u8, low: u8, sampling: u8, rssi: u8, filtering: u8, event: u8) -> u8
    ensures { result ≡ row_bits high low sampling rssi filtering event }
{
    let l = state::level_of(rssi);
    let lowest = state::level_of(low);
    let highest = state::level_of(high);
    let good = u8::from(lowest < l);
    let windowed = u8::from((1 <= sampling) & (sampling <= 254));
    let strong = u8::from(highest <= l);
    let through = state::lets_through(filtering, event);
    let instant = u8::from((sampling == 0) & through);
    let sifts = filtering % 2;
    let told = u8::from(through);
    good + 2 * windowed + 4 * strong + 8 * instant + 16 * sifts + 32 * told + MATCHED
}

// Whether a packet matches the condition at a handle. The scan response begins at index scan.
fn matches_at(s: &[u8], h: usize, payload: &[u8], scan: usize) -> bool
    requires { (length s.now ≡ block_size) × (h < most_monitors) × Framed payload.now
        × (scan ≡ scan_at payload.now) }
    ensures { result
        ≡ meets_condition (monitor_in (row monitor_size h (drop monitors_at s.now))).1
        (packet_of payload.now) }
{
    let at = State::MONITORS_AT + State::MONITOR_ROW * h;
    let from = at + State::CONDITION_AT;
    let to = from + octets::at_most(s[at + State::CONDITION_LENGTH_AT], State::CONDITION_ROOM);
    let end = 9 + octets::wide(payload[8]);
    let last = payload.len() - 1;
    advert::match_packet(
        s[at + State::TYPE_AT],
        &s[from..to],
        payload[1],
        &payload[2..8],
        &payload[9..end],
        &payload[scan..last],
    )
}

// Whether the monitor of a handle is in use (its interval is not 0) and the packet meets its condition; for an address
// that keys resolve met has it of the handles with a key, and no key resolves another.
fn met_at(
    met: &Option<[bool; State::MONITORS]>,
    s: &[u8],
    h: usize,
    payload: &[u8],
    scan: usize,
) -> bool
    requires { (length s.now ≡ block_size) × (h < most_monitors) × Framed payload.now
        × (scan ≡ scan_at payload.now) × Told met.now s.now payload.now h }
    ensures { flag result
        ≡ met_row (row monitor_size h (drop monitors_at s.now)) (packet_of payload.now) }
{
    let at = State::MONITORS_AT + State::MONITOR_ROW * h;
    if s[at + State::INTERVAL_AT] == 0 {
        return false;
    }
    if s[at + State::TYPE_AT] == advert::IRK {
        return match met {
            Some(found) => found[h],
            None => false,
        };
    }
    matches_at(s, h, payload, scan)
}

// The octet of a handle by its condition alone, from whether its monitor is in use and the condition met.
fn mark_at(s: &[u8], h: usize, payload: &[u8], met: bool) -> u8
    requires { (length s.now ≡ block_size) × (h < most_monitors) × Framed payload.now
        × (flag met ≡ met_row (row monitor_size h (drop monitors_at s.now)) (packet_of payload.now)) }
    ensures { result
        ≡ met_mark (row monitor_size h (drop monitors_at s.now)) (packet_of payload.now) }
{
    if !met {
        return 0;
    }
    let at = State::MONITORS_AT + State::MONITOR_ROW * h;
    row_bits(
        s[at + State::HIGH_AT],
        s[at + State::LOW_AT],
        s[at + State::SAMPLING_AT],
        payload[payload.len() - 1],
        state::filtering_of(s[at + State::OPTIONS_AT], s[at + State::FILTERING_AT]),
        payload[0],
    )
}

// The same of a handle that is asked, 0 of another.
fn mark_asked(
    met: &Option<[bool; State::MONITORS]>,
    s: &[u8],
    h: usize,
    payload: &[u8],
    scan: usize,
    ask: bool,
) -> u8
    requires { (length s.now ≡ block_size) × (h < most_monitors) × Framed payload.now
        × (scan ≡ scan_at payload.now) × (ask ≡ true → Told met.now s.now payload.now h) }
    ensures { result
        ≡ mark_if (flag ask) (met_mark (row monitor_size h (drop monitors_at s.now))
        (packet_of payload.now)) }
{
    if !ask {
        return 0;
    }
    let m = met_at(met, s, h, payload, scan);
    mark_at(s, h, payload, m)
}

// The first pass: the octets of the handles that are asked, by their conditions; 0 of the others.
fn mark_each(
    acts: &mut [u8],
    met: &Option<[bool; State::MONITORS]>,
    s: &[u8],
    held: &[u8],
    reach: u16,
    payload: &[u8],
)
    requires { (length acts.old ≡ most_monitors) × (length s.now ≡ block_size)
        × (length held.now ≡ most_monitors) × Framed payload.now
        × ToldAll met.now s.now (asked_of held.now s.now reach) payload.now }
    ensures { acts.new
        ≡ met_if (asked_of held.now s.now reach) s.now
        (packet_of payload.now) }
{
    let scan = scan_at(payload);
    for h in 0..State::MONITORS {
        let ask = asks::ask_at(s, h, held[h], reach);
        acts[h] = mark_asked(met, s, h, payload, scan, ask);
    }
}

// Whether a packet has a resolvable private address: a random one with top bits 01.
fn is_private(payload: &[u8]) -> bool
    requires { Framed payload.now }
    ensures { result ≡ private_of payload.now }
{
    (payload[1] == 1) & resolve::is_resolvable(&payload[2..8])
}

// For a resolvable private address the keys of conditions are asked first, so that the cipher runs once a key: which
// of them resolve it; none for another address.
fn find_keys(s: &[u8], held: &[u8], reach: u16, payload: &[u8]) -> Option<[bool; State::MONITORS]>
    requires { (length s.now ≡ block_size) × (length held.now ≡ most_monitors) × Framed payload.now }
    ensures { ToldAll result s.now (asked_of held.now s.now reach) payload.now }
{
    if is_private(payload) {
        return Some(keys::met_keys(s, held, reach, payload));
    }
    None
}

// Where the scan response of a packet frame's payload begins. A payload of kind 02 has none: there the RSSI stands.
pub fn scan_at(payload: &[u8]) -> usize
    ensures { result ≡ scan_at payload.now }
{
    let n = payload.len();
    if n < 9 {
        return 9;
    }
    let d = octets::wide(payload[8]);
    if n <= 10 + d {
        return 9 + d;
    }
    10 + d
}

// Whether octets are those of a packet frame by their lengths: event type, address type, address (6), data length n
// of at most 31, n octets, then with kind 04 the scan response's length of at most 31 and so many octets, RSSI.
pub fn is_framed(payload: &[u8]) -> bool
    ensures { result ≡ framed payload.now }
{
    let n = payload.len();
    if n < 10 {
        return false;
    }
    let d = octets::wide(payload[8]);
    if State::DATA < d {
        return false;
    }
    if n == 10 + d {
        return true;
    }
    if n < 10 + d {
        return false;
    }
    let k = octets::wide(payload[9 + d]);
    (k <= State::DATA) & (n == 11 + d + k)
}

// Whether the octets of so many handles can be written from a block and a payload.
fn is_fit(n: usize, s: &[u8], payload: &[u8]) -> bool
    ensures { result ≡ fits_for n s.now payload.now }
{
    let framed = is_framed(payload);
    (n == State::MONITORS) & ((s.len() == State::SIZE) & framed)
}

// The passes are written out here and in mark_held: each is then a function with two callers, which stays one, and
// the cipher, which two of them ask, stands below neither the match of conditions nor its stack.

// The octets of the handles 0 to 15, from the block s and a packet frame's payload. Where acts is not of 16 octets, s
// no block of 5,225 or the payload no packet frame's by its lengths, nothing is written and the answer is false.
pub fn mark_all(acts: &mut [u8], s: &[u8], payload: &[u8]) -> bool
    ensures { (result ≡ marks_fit acts.old s.now payload.now)
        × (acts.new ≡ marked result acts.old s.now payload.now) }
{
    if !is_fit(acts.len(), s, payload) {
        return false;
    }
    let held = [1u8; State::MONITORS];
    let met = find_keys(s, &held, 0, payload);
    mark_each(acts, &met, s, &held, 0, payload);
    options::admit_each(acts, s, payload);
    true
}

// The same of the handles alone whose pair of the packet's device is held, by an octet a handle that is not 0, and,
// where a pair may start, of those whose high threshold the packet reaches: the others' octets are 0, and of their
// monitors no more than the high threshold is read. Where held is not of 16 octets, too, nothing is written and the
// answer is false.
pub fn mark_held(acts: &mut [u8], s: &[u8], payload: &[u8], held: &[u8], may: bool) -> bool
    ensures { (result ≡ held_fit held.now acts.old s.now payload.now)
        × (acts.new
        ≡ marked_for result may held.now acts.old s.now payload.now) }
{
    if held.len() != State::MONITORS {
        return false;
    }
    if !is_fit(acts.len(), s, payload) {
        return false;
    }
    let reach = asks::reach_of(may, payload[payload.len() - 1]);
    let met = find_keys(s, held, reach, payload);
    mark_each(acts, &met, s, held, reach, payload);
    options::admit_each(acts, s, payload);
    true
}
