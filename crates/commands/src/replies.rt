// The answers to commands: Command Complete with status, sub-opcode and what the command returns (document 01,
// Commands).
ghost use Rattle.std.specs.Prelude.{◌+◌, ◌≤◌, ◌≡◌, [], ◌∷◌, length};
ghost use Rattle.laws.specs.Put.{put};
ghost use Rattle.model.specs.Commands.{table, answer_in};
ghost use Rattle.model.specs.Events.{complete};
ghost use Rattle.statuses.specs.Codes.{code};
ghost use Rattle.commands.specs.Replies.{Replied, head_of, prefix_in, features_of};
ghost use Rattle.model.specs.Layout.{return_most, block_size};
ghost use Rattle.sessions.specs.Machine.{answer_room};

use state::State;
use statuses::Status;

// Writes what comes before n return parameters.
fn put_head(out: &mut [u8], opcode: u16, n: u8)
    requires { (answer_room ≤ length out.old) × (n ≤ return_most) }
    ensures { out.new ≡ put out.old 0 (head_of opcode n) }
{
    out[0] = 0x0E;
    out[1] = 3 + n;
    out[2] = 0x01;
    octets::put16(out, 3, opcode);
}

// Writes an answer of refusal that has a status and the sub-opcode alone.
pub(super) fn reply(out: &mut [u8], opcode: u16, status: Status, sub: u8) -> usize
    requires { answer_room ≤ length out.old }
    ensures { Replied out.old out.new result (complete opcode (code status ∷ sub ∷ [])) }
{
    put_head(out, opcode, 2);
    let octet = status.code();
    out[5] = octet;
    out[6] = sub;
    7
}

// Writes an answer of success that has a status and the sub-opcode alone, as many return parameters as the table says.
pub(super) fn reply_done(out: &mut [u8], opcode: u16, sub: u8) -> usize
    requires { (answer_room ≤ length out.old) × (answer_in table sub ≡ 2) }
    ensures { Replied out.old out.new result (complete opcode (0 ∷ sub ∷ [])) }
{
    put_head(out, opcode, statuses::answer_of(sub));
    out[5] = 0;
    out[6] = sub;
    7
}

// Writes an answer to 03 or 0F: a status and a handle.
pub(super) fn reply_handle(out: &mut [u8], opcode: u16, status: u8, sub: u8, handle: u8) -> usize
    requires { (answer_room ≤ length out.old) × (answer_in table sub ≡ 3) }
    ensures { Replied out.old out.new result (complete opcode (status ∷ sub ∷ handle ∷ [])) }
{
    put_head(out, opcode, statuses::answer_of(sub));
    out[5] = status;
    out[6] = sub;
    out[7] = handle;
    8
}

// Status and sub-opcode of 00, and the features: RSSI monitoring and advertisement monitoring of legacy advertisements,
// and version 2 of the monitor command.
const FEATURES: [u8; 10] = [0x00, 0x00, 0x0C, 0x04, 0, 0, 0, 0, 0, 0];

// Writes the answer to 00: the features and the prefix.
pub(super) fn reply_features(s: &[u8], out: &mut [u8], opcode: u16) -> usize
    requires { (length s.now ≡ block_size) × (answer_room ≤ length out.old) }
    ensures { Replied out.old out.new result
        (complete opcode (features_of (prefix_in s.now))) }
{
    let k = octets::at_most(s[State::PREFIX_LENGTH_AT], State::PREFIX);
    let n = k as u8;
    let f = FEATURES;
    put_head(out, opcode, statuses::answer_of(0x00) + n);
    parts::copy(out, 5, &f);
    out[15] = n;
    parts::copy(out, 16, &s[State::PREFIX_AT..State::PREFIX_AT + k]);
    16 + k
}
