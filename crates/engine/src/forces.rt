// A frame on a whole block: the edition of its own number stands in the head while it is judged, and that of the
// position behind it (document 02, T-12). The index of the block is left as it is.
ghost use Rattle.std.specs.Prelude.{◌≤◌, ◌≡◌, true, length};
ghost use Rattle.laws.specs.Tests.{pick};
ghost use Rattle.sessions.specs.Machine.{answer_room, octets as as_octets};
ghost use Rattle.sessions.specs.Session.{judge as judged};
ghost use Rattle.model.specs.Frames.{read};
ghost use Rattle.wholes.specs.Layout.{whole_size};
ghost use Rattle.wholes.specs.Engine.{with_index};
ghost use Rattle.prefixes.specs.Force.{enforced};
ghost use Rattle.engine.specs.Calls.{Called};
ghost use Rattle.engine.specs.Loose.{index_on, sound_loose};

use super::executes;
use refusals::Refusal;
use state::State;

// The edition in force at a number, written into the head, where one begins.
fn turn_to(s: &mut [u8], begins: bool, n: u64)
    ensures { s.new ≡ pick begins (enforced n s.old) s.old }
{
    if begins {
        prefixes::enforce(s, n);
    }
}

// A frame as octets, on a block that is sound but for its index. A refusal puts the head back. There is one place
// that judges, so that the steps need no stack of their own behind this function's.
pub(super) fn judge(s: &mut [u8], frame: &[u8], out: &mut [u8]) -> Result<usize, Refusal>
    requires { (sound_loose s.old ≡ true) × (length s.old ≡ whole_size) × (answer_room ≤ length out.old) }
    ensures { Called
        (judged (with_index (index_on s.old)) s.old (read as_octets frame.now))
        s.old out.old s.new out.new result }
{
    let next = octets::get32(s, State::POSITION_AT) as u64 + 1;
    let begins = prefixes::starts(s, next);
    turn_to(s, begins, next);
    let r = executes::judge(&mut s[..State::SIZE], frame, out);
    let reached = octets::get32(s, State::POSITION_AT) as u64;
    turn_to(s, begins, reached);
    r
}
