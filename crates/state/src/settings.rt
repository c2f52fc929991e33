// The settings of a state, written into its block (document 01, Settings).
ghost use Rattle.std.specs.Prelude.{◌≡◌, ◌≤◌, length};
ghost use Rattle.laws.specs.Put.{put};
ghost use Rattle.state.specs.Start.{settings_row};
ghost use Rattle.model.specs.Layout.{head_size, most_prefix};

use super::State;

// The settings written into a block.
pub(super) fn set_settings(block: &mut [u8], opcode: u16, prefix: &[u8])
    requires { (length prefix.now ≤ most_prefix) × (head_size ≤ length block.old) }
    ensures { block.new ≡ put block.old 5 (settings_row opcode prefix.now) }
{
    octets::put16(block, State::OPCODE_AT, opcode);
    let n = prefix.len() as u8;
    octets::put8(block, State::PREFIX_LENGTH_AT, n);
    parts::copy(block, State::PREFIX_AT, prefix);
}
