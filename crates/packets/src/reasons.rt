// Whether a pair held is a reason for a packet's report (document 01, Watching, by history; document 02, T-13).
ghost use Rattle.std.specs.Prelude.{◌≡◌, ◌<◌, length};
ghost use Rattle.model.specs.Layout.{block_size, most_pairs};
ghost use Rattle.marks.specs.Fields.{Framed};
ghost use Rattle.packets.specs.Alike.{alike_in, reason_at, reason_in};

use state::State;

// Whether pair i keeps a packet with the event type and the data of this one.
fn is_alike(s: &[u8], i: usize, payload: &[u8]) -> bool
    requires { (length s.now ≡ block_size) × (i < most_pairs) × Framed payload.now }
    ensures { result ≡ alike_in s.now i payload.now }
{
    let at = State::PAIRS_AT + State::PAIR_ROW * i;
    if s[at + State::EVENT_AT] != payload[0] {
        return false;
    }
    if s[at + State::LENGTH_AT] != payload[8] {
        return false;
    }
    let n = octets::wide(payload[8]);
    let from = at + State::DATA_AT;
    let to = from + n;
    let end = 9 + n;
    parts::same(&s[from..to], &payload[9..end])
}

// Whether pair i, which is of the packet's device, is a reason for its report, by its handle's octet: at once, and
// where duplicates are filtered, if it is none.
pub(super) fn is_reason_in(s: &[u8], i: usize, a: u8, payload: &[u8]) -> bool
    requires { (length s.now ≡ block_size) × (i < most_pairs) × Framed payload.now }
    ensures { result ≡ reason_in s.now i a payload.now }
{
    if a / 8 % 2 != 1 {
        return false;
    }
    if a / 16 % 2 != 1 {
        return true;
    }
    !is_alike(s, i, payload)
}

// The same of any octets and any number. Where s is no block of 5,225 octets, i no row of a pair or the payload no
// packet frame's by its lengths, it is none.
pub fn is_reason(s: &[u8], i: usize, a: u8, payload: &[u8]) -> bool
    ensures { result ≡ reason_at s.now i a payload.now }
{
    if s.len() != State::SIZE {
        return false;
    }
    if State::PAIRS <= i {
        return false;
    }
    if !marks::is_framed(payload) {
        return false;
    }
    is_reason_in(s, i, a, payload)
}
