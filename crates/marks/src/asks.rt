// Which monitors are asked of a packet (document 01, Watching, by history): what the others would say matters to
// nothing.
ghost use Rattle.std.specs.Prelude.{◌<◌, ◌≡◌, length};
ghost use Rattle.model.specs.Level.{level};
ghost use Rattle.marks.specs.Asked.{ask_at, reach_of};
ghost use Rattle.marks.specs.Marks.{flag};
ghost use Rattle.model.specs.Layout.{block_size, most_monitors};

use state::State;

// The levels that a packet of an RSSI reaches are those below this: none where no pair may start.
pub(super) fn reach_of(may: bool, rssi: u8) -> u16
    ensures { result ≡ reach_of may (level rssi) }
{
    let reached = state::level_of(rssi);
    if may {
        return reached as u16 + 1;
    }
    0
}

// Whether a handle is asked: its pair of the packet's device is held, or the packet may start one and reaches its high
// threshold.
pub(super) fn ask_at(s: &[u8], h: usize, held: u8, reach: u16) -> bool
    requires { (length s.now ≡ block_size) × (h < most_monitors) }
    ensures { flag result ≡ ask_at s.now h held reach }
{
    let high = state::level_of(s[State::MONITORS_AT + State::MONITOR_ROW * h + State::HIGH_AT]);
    (held != 0) | ((high as u16) < reach)
}
