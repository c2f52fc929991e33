// A packet: what it does to the pairs held, the watches that it starts, and what it writes (document 01, Watching, by
// history). One pass over the pairs finds those of the packet's device. The crate marks asks the monitors of these
// and those that the packet may start, and keeps what each says of the packet as one octet a handle. Then the rows of
// the device's pairs are changed in place, the handles take their turns, which start pairs behind them, and the
// reports are written.
#![tactic(auto)]

mod device;
pub mod reasons;
pub mod reports;
mod room;
mod starts;
mod weakest;
mod windows;

ghost use Rattle.std.specs.Prelude.{◌≡◌, ℕ, ◌+◌, ◌*◌, ◌<◌, ◌≤◌, true, false, List, length, replicate};
ghost use Rattle.octets.specs.Numbers.{number_at};
ghost use Rattle.model.specs.Types.{Model, Packet};
ghost use Rattle.sessions.specs.Machine.{answer_room};
ghost use Rattle.model.specs.Frames.{has_packet, packet_of, packet as packet_frame};
ghost use Rattle.model.specs.Watch.{packet_move, is_reason, reported};
ghost use Rattle.model.specs.Block.{padded};
ghost use Rattle.steps.specs.Typed.{Sent};
ghost use Rattle.steps.specs.Stepped.{Steps, Within, Taken};
ghost use Rattle.marks.specs.Fields.{Framed};
ghost use Rattle.packets.specs.Changes.{freshened, collected, counted, strengthened, recalled, changed};
ghost use Rattle.packets.specs.Moves.{AtPair, pair_at, with_pair};
ghost use Rattle.packets.specs.Held.{Given};
ghost use Rattle.packets.specs.Device.{Spans};
ghost use Rattle.packets.specs.Starts.{Holding};
ghost use Rattle.packets.specs.Whole.{Acts, Begun, after_moves, after_starts};
ghost use Rattle.packets.specs.Reports.{held_told, starts_told};
ghost use Rattle.model.specs.Layout.{block_size, most_monitors, most_pairs, pair_size, pairs_at};

use state::State;

// The count of ticks of pair i starts anew, where its handle's octet says so.
fn refresh(s: &mut [u8], i: usize, a: u8)
    requires { (length s.old ≡ block_size) × (i < most_pairs) }
    ensures { (m : Model) → AtPair m s.old i → s.new ≡ padded (with_pair m i (freshened a (pair_at m i))) }
{
    if a % 2 == 1 {
        octets::put16(
            s,
            State::PAIRS_AT + State::PAIR_ROW * i + State::SILENT_AT,
            0,
        );
    }
}

// The window of pair i takes the packet, where its handle's octet says so.
fn gather(s: &mut [u8], i: usize, a: u8, payload: &[u8])
    requires { (length s.old ≡ block_size) × (i < most_pairs) × Framed payload.now }
    ensures { (m : Model) → AtPair m s.old i → Sent (packet_of payload.now)
        → (pair_at m i).packets < 4294967295
        → s.new ≡ padded (with_pair m i (collected a (packet_of payload.now) (pair_at m i))) }
{
    if a / 2 % 2 == 1 {
        windows::gather_at(
            s,
            State::PAIRS_AT + State::PAIR_ROW * i + State::PACKETS_AT,
            payload,
        );
    }
}

// The count of ticks and the window of pair i.
fn count_row(s: &mut [u8], i: usize, a: u8, payload: &[u8])
    requires { (length s.old ≡ block_size) × (i < most_pairs) × Framed payload.now }
    ensures { (m : Model) → AtPair m s.old i → Sent (packet_of payload.now)
        → (pair_at m i).packets < 4294967295
        → s.new ≡ padded (with_pair m i (counted a (packet_of payload.now) (pair_at m i))) }
{
    refresh(s, i, a);
    gather(s, i, a, payload);
}

// The RSSI that pair i keeps, where its handle's octet says that the packet matches.
fn keep(s: &mut [u8], i: usize, a: u8, rssi: u8)
    requires { (length s.old ≡ block_size) × (i < most_pairs) }
    ensures { (m : Model) → AtPair m s.old i
        → s.new ≡ padded (with_pair m i (strengthened a rssi (pair_at m i))) }
{
    if a < marks::MATCHED {
        return;
    }
    s[State::PAIRS_AT + State::PAIR_ROW * i + State::RSSI_AT] = rssi;
}

// The packet that pair i keeps for duplicates, where its handle's octet says that these are filtered and that the
// packet is let through.
fn remember(s: &mut [u8], i: usize, a: u8, payload: &[u8])
    requires { (length s.old ≡ block_size) × (i < most_pairs) × Framed payload.now }
    ensures { (m : Model) → AtPair m s.old i → Sent (packet_of payload.now)
        → s.new ≡ padded (with_pair m i (recalled a (packet_of payload.now) (pair_at m i))) }
{
    if a / 16 % 2 != 1 {
        return;
    }
    if a / 32 % 2 != 1 {
        return;
    }
    windows::put_latest(
        s,
        State::PAIRS_AT + State::PAIR_ROW * i + State::EVENT_AT,
        payload,
    );
}

fn change_row(s: &mut [u8], i: usize, a: u8, payload: &[u8])
    requires { (length s.old ≡ block_size) × (i < most_pairs) × Framed payload.now }
    ensures { (m : Model) → AtPair m s.old i → Sent (packet_of payload.now)
        → (pair_at m i).packets < 4294967295
        → s.new ≡ padded (with_pair m i (changed a (packet_of payload.now) (pair_at m i))) }
{
    keep(s, i, a, payload[payload.len() - 1]);
    count_row(s, i, a, payload);
    remember(s, i, a, payload);
}

// The key of pair i. It is read from its own part, so that its end need not be asked for.
fn key_at(s: &[u8], i: usize) -> u64
    requires { (length s.now ≡ block_size) × (i < most_pairs) }
    ensures { result ≡ number_at 8 s.now (pairs_at + pair_size * i) }
{
    let from = State::PAIRS_AT + State::PAIR_ROW * i;
    let to = from + State::KEY;
    octets::get64(&s[from..to], 0)
}

// Pair i over the packet: changed where it is a pair of the packet's device. A row opens with its key, the handle and
// the device. Answers whether the pair is a reason for a report.
fn move_row(s: &mut [u8], i: usize, acts: &[u8], payload: &[u8], dev: u64) -> bool
    requires { (length s.old ≡ block_size) × (i < most_pairs) × (length acts.now ≡ most_monitors)
        × Framed payload.now }
    ensures { (m : Model) → AtPair m s.old i
        → Given m.mons (packet_of payload.now) acts.now dev (pair_at m i)
        → (pair_at m i).packets < 4294967295 → (result ≡ is_reason m.mons (packet_of payload.now) (pair_at m i))
        × (s.new
        ≡ padded (with_pair m i (packet_move m.mons (packet_of payload.now) (pair_at m i)))) }
{
    let key = key_at(s, i);
    if key / 256 != dev {
        return false;
    }
    let h = (key % 256) as usize;
    if State::MONITORS <= h {
        return false;
    }
    let a = acts[h];
    let told = reasons::is_reason_in(s, i, a, payload);
    change_row(s, i, a, payload);
    told
}

// The pairs held over the packet, from the first one of its device to the last. Answers whether one of them is a
// reason for a report.
fn move_rows(s: &mut [u8], from: usize, to: usize, acts: &[u8], payload: &[u8], dev: u64) -> bool
    requires { (length s.old ≡ block_size) × (from ≤ to) × (to ≤ most_pairs) × (length acts.now ≡ most_monitors)
        × Framed payload.now }
    ensures { (m : Model) (held : List ℕ) (n : ℕ)
        → Begun m s.old payload.now acts.now held dev n
        → Spans m.pairs (packet_of payload.now) from to
        → (result ≡ held_told m (packet_of payload.now))
        × (s.new ≡ padded (after_moves m (packet_of payload.now))) }
{
    let mut told = false;
    for i in from..to {
        let reason = move_row(s, i, acts, payload, dev);
        told = told | reason;
    }
    told
}

// Whether the packet is reported: the filter is off, or a pair held is a reason, or a start is told.
fn is_told(s: &[u8], held: bool, start: bool) -> bool
    requires { length s.now ≡ block_size }
    ensures { (m : Model) (p : Packet) (k : ℕ) → Holding (after_starts m p) s.now k → held ≡ held_told m p
        → start ≡ starts_told m p → result ≡ reported m p }
{
    if s[State::FILTER_AT] == 0 {
        return true;
    }
    held | start
}

// What the monitors of the device's pairs say of the packet and, where it may start a pair behind the n that are held,
// those that it is strong enough for. A packet that concerns nobody asks none.
fn ask(acts: &mut [u8], s: &[u8], n: usize, payload: &[u8], held: &[u8])
    requires { (acts.old ≡ replicate most_monitors 0) × (length s.now ≡ block_size) × Framed payload.now
        × (length held.now ≡ most_monitors) }
    ensures { Acts s.now payload.now held.now n acts.new }
{
    let may = room::may_start(s, n, payload[payload.len() - 1]);
    if !may {
        if parts::zeros(held) {
            return;
        }
    }
    marks::mark_held(acts, s, payload, held, may);
}

// A packet frame on a block of the right length.
fn step(s: &mut [u8], payload: &[u8], out: &mut [u8]) -> usize
    requires { (length s.old ≡ block_size) × (answer_room ≤ length out.old) × Framed payload.now }
    ensures { Within out.old out.new result
        × (has_packet payload.now ≡ true
        → Steps (packet_frame (packet_of payload.now)) s.old s.new out.old
        out.new result) }
{
    let dev = octets::get64(payload, 0) / 256;
    let n = octets::at_most(s[State::COUNT_AT], State::PAIRS);
    let from = device::first_of(s, n, dev);
    let to = device::end_of(s, from, n, dev);
    let held = device::held_in(s, from, to, dev);
    let mut acts = [0u8; State::MONITORS];
    ask(&mut acts, s, n, payload, &held);
    let reason = move_rows(s, from, to, &acts, payload, dev);
    let turn = starts::start_all(s, n, &acts, &held, dev, payload, out);
    let told = is_told(s, reason, turn.told);
    let r = reports::put_told(out, turn.wrote, told, payload);
    state::advance(s);
    turn.wrote + r
}

// A packet frame, executed: the pairs of its device refreshed and their windows given the packet, the turns of the
// handles taken, the position moved; the stop and start events and the reports written into out. The payload is event
// type, address type, address (6), data length n, n octets, with kind 04 scan response length k and k octets, and
// RSSI. Answers how many octets were written. Where the block is not of 5,225 octets or at the last frame number, out
// has under 2,880 octets, or the payload is of no packet frame, nothing is changed and the answer is 0. Of a block
// that is of no sound state the contents, what is written and how much are free; the lengths stay, the answer is at
// most the length of out, and the octets past it are as they were. No window of a sound state is full before the last
// number (crate steps, Counts).
pub fn packet(s: &mut [u8], payload: &[u8], out: &mut [u8]) -> usize
    ensures { Taken (packet_frame (packet_of payload.now)) (has_packet payload.now)
        s.old s.new out.old out.new result }
{
    if !state::ready(s, out) {
        return 0;
    }
    if !frames::has_packet(payload) {
        return 0;
    }
    step(s, payload, out)
}
