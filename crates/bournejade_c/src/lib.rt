// The static library for firmware in C: the calls of the crate `bournejade`, exported. Each has the name, the parameters and the
// clauses of the function there, and only calls it. The header is include/bournejade.h; `bin/archive TARGET` writes
// libbournejade.a.
#![tactic(auto)]

ghost use Rattle.std.specs.Prelude.{◌≡◌, length};
ghost use Rattle.laws.specs.Tests.{pick};
ghost use Rattle.advert.specs.Cost.{match_cost, in64};
ghost use Rattle.advert.specs.Pattern.{patterns_meet};
ghost use Rattle.lines.specs.Answers.{write_line, after_write};
ghost use Rattle.lines.specs.Frame.{line_room};
ghost use Rattle.lines.specs.Hex.{text_of};
ghost use Rattle.sessions.specs.Machine.{text as as_text, octets as as_octets, answer_room, save_room};
ghost use Rattle.sessions.specs.Session.{answer, image, state_after};
ghost use Rattle.model.specs.Sound.{sound_settings};
ghost use Rattle.editions.specs.Editions.{is_image_on};
ghost use Rattle.model.specs.Block.{model_of};
ghost use Rattle.model.specs.Types.{device};
ghost use Rattle.wholes.specs.Engine.{engine, begin, add_whole};
ghost use Rattle.wholes.specs.Index.{mask_for, handles_of};
ghost use Rattle.wholes.specs.Layout.{whole_size};
ghost use Rattle.index.specs.Asked.{watch_of, watch_count, lowest_in};
ghost use Rattle.replays.specs.Into.{replay_into, replay_to};
ghost use Rattle.walks.specs.Walk.{behind};
ghost use Rattle.wholes.specs.Engine.{block_in};
ghost use Rattle.bournejade.specs.Gives.{number_in, count_in, number_of, Gave, ReplayGave};
ghost use Rattle.month.specs.Numbers.{Rowed};

use index::Whole;
use totals::Row;

// The library's version.
#[unsafe(no_mangle)]
pub extern "C" fn bournejade_version() -> u32
    ensures { result ≡ 0x010100 }
{
    bournejade::bournejade_version()
}

// Octets of a state.
#[unsafe(no_mangle)]
pub extern "C" fn bournejade_state_size() -> usize
    ensures { result ≡ whole_size }
{
    bournejade::bournejade_state_size()
}

// Octets that the output of a frame must have.
#[unsafe(no_mangle)]
pub extern "C" fn bournejade_answer_size() -> usize
    ensures { result ≡ answer_room }
{
    bournejade::bournejade_answer_size()
}

// Octets that the output of an image must have.
#[unsafe(no_mangle)]
pub extern "C" fn bournejade_image_size() -> usize
    ensures { result ≡ save_room }
{
    bournejade::bournejade_image_size()
}

// Octets that the output of a line must have.
#[unsafe(no_mangle)]
pub extern "C" fn bournejade_line_size() -> usize
    ensures { result ≡ line_room }
{
    bournejade::bournejade_line_size()
}

// Begins with settings: 0 and the fresh state, or 9 and the blank one.
#[unsafe(no_mangle)]
pub extern "C" fn bournejade_begin(state: &mut [u8; Whole::SIZE], opcode: u16, prefix: &[u8]) -> u8
    ensures value { result ≡ pick (sound_settings opcode prefix.now) 0 9 }
    ensures state_after { state.new ≡ begin opcode prefix.now }
{
    bournejade::bournejade_begin(state, opcode, prefix)
}

// The number of the last executed frame, as the block has it.
#[unsafe(no_mangle)]
pub extern "C" fn bournejade_position(state: &[u8; Whole::SIZE]) -> u32
    ensures { result ≡ (model_of state.now).position }
{
    bournejade::bournejade_position(state)
}

// Gives a frame as octets: 0, or 7, 3, 4, 1, 2, 5, 6.
#[unsafe(no_mangle)]
pub extern "C" fn bournejade_submit(
    state: &mut [u8; Whole::SIZE],
    frame: &[u8],
    out: &mut [u8],
    wrote: &mut usize,
) -> u8
    ensures { Gave
        (answer engine (length out.old) state.old as_octets frame.now)
        state.old out.old state.new out.new wrote.new result }
{
    bournejade::bournejade_submit(state, frame, out, wrote)
}

// Gives a frame as its line, with the same result.
#[unsafe(no_mangle)]
pub extern "C" fn bournejade_submit_line(
    state: &mut [u8; Whole::SIZE],
    line: &[u8],
    out: &mut [u8],
    wrote: &mut usize,
) -> u8
    ensures { Gave (answer engine (length out.old) state.old as_text line.now)
        state.old out.old state.new out.new wrote.new result }
{
    bournejade::bournejade_submit_line(state, line, out, wrote)
}

// Gives a frame as its line and counts it in the caller's sixteen rows of four 64-bit numbers each: packets, reports,
// ticks, signed RSSI sum. The same result as without rows. Refusals, in this order: 7, 3 (also for a table that is
// not of sixteen rows), 4, 1, 2, 5, 6, 12; all leave the rows as they came.
#[unsafe(no_mangle)]
pub extern "C" fn bournejade_count_line(
    state: &mut [u8; Whole::SIZE],
    line: &[u8],
    out: &mut [u8],
    wrote: &mut usize,
    rows: &mut [Row],
) -> u8
    ensures { Rowed (length rows.old) state.old line.now out.old
        rows.old result wrote.new rows.new state.new out.new }
{
    bournejade::bournejade_count_line(state, line, out, wrote, rows)
}

// Adds an edition of the event prefix, which holds from a frame number on: 0, or 7, 15, 14, 13.
#[unsafe(no_mangle)]
pub extern "C" fn bournejade_add_edition(
    state: &mut [u8; Whole::SIZE],
    number: u32,
    prefix: &[u8],
) -> u8
    ensures value { result
        ≡ number_of (add_whole state.old (record { from = number; prefix = prefix.now })) }
    ensures state_after { state.new
        ≡ state_after state.old
        (add_whole state.old (record { from = number; prefix = prefix.now })) }
{
    bournejade::bournejade_add_edition(state, number, prefix)
}

// Writes the line of a frame, for the journal: 0, or 3, 4.
#[unsafe(no_mangle)]
pub extern "C" fn bournejade_write_line(frame: &[u8], out: &mut [u8], wrote: &mut usize) -> u8
    ensures value { result ≡ number_in (write_line frame.now (length out.old)) }
    ensures wrote_after { wrote.new ≡ count_in (write_line frame.now (length out.old)) }
    ensures out_after { out.new
        ≡ after_write (write_line frame.now (length out.old)) out.old
        (text_of frame.now) }
{
    bournejade::bournejade_write_line(frame, out, wrote)
}

// Saves the image's text: 0, or 7, 3.
#[unsafe(no_mangle)]
pub extern "C" fn bournejade_save(
    state: &[u8; Whole::SIZE],
    out: &mut [u8],
    wrote: &mut usize,
) -> u8
    ensures { Gave (image engine (length out.old) state.now) state.now
        out.old state.now out.new wrote.new result }
{
    bournejade::bournejade_save(state, out, wrote)
}

// Restores the state of an image's text: 0, or 10 and the blank state.
#[unsafe(no_mangle)]
pub extern "C" fn bournejade_restore(state: &mut [u8; Whole::SIZE], image: &[u8]) -> u8
    ensures value { result ≡ pick (is_image_on image.now) 0 10 }
    ensures state_after { state.new ≡ block_in (is_image_on image.now) image.now }
{
    bournejade::bournejade_restore(state, image)
}

// Replays the whole lines of a piece of journal into one output: 0 at the end of the last one, or the refusal that
// stopped it, how far it read, how much it wrote.
#[unsafe(no_mangle)]
pub extern "C" fn bournejade_replay(
    state: &mut [u8; Whole::SIZE],
    journal: &[u8],
    out: &mut [u8],
    taken: &mut usize,
    wrote: &mut usize,
) -> u8
    ensures { ReplayGave
        (replay_into engine (length out.old) state.old journal.now) out.old
        state.new out.new taken.new wrote.new result }
{
    bournejade::bournejade_replay(state, journal, out, taken, wrote)
}

// Replays up to the frame `last`: the same, but a further line is taken only while the position is below `last`.
#[unsafe(no_mangle)]
pub extern "C" fn bournejade_replay_to(
    state: &mut [u8; Whole::SIZE],
    last: u32,
    journal: &[u8],
    out: &mut [u8],
    taken: &mut usize,
    wrote: &mut usize,
) -> u8
    ensures { ReplayGave
        (replay_to engine last (length out.old) state.old journal.now)
        out.old state.new out.new taken.new wrote.new result }
{
    bournejade::bournejade_replay_to(state, last, journal, out, taken, wrote)
}

// Walks the events of an answer, or of what a replay wrote: the index behind the event that begins at an index, 0
// where no whole event begins there.
#[unsafe(no_mangle)]
pub extern "C" fn bournejade_event(answer: &[u8], at: usize) -> usize
    ensures { result ≡ behind answer.now at }
{
    bournejade::bournejade_event(answer, at)
}

// Matches a pattern condition, as command 03 gives it, against an advertisement and a scan response, empty where
// there is none: 1 or 0, and how many comparisons it took.
#[unsafe(no_mangle)]
pub extern "C" fn bournejade_match<'a, 'b, 'c>(
    condition: &'b [u8],
    adv: &'a [u8],
    scan: &'a [u8],
    comparisons: &'c mut usize,
) -> u8
    ensures value { result ≡ pick (patterns_meet condition.now adv.now scan.now) 1 0 }
    ensures comparisons_after { comparisons.new
        ≡ in64 (match_cost condition.now adv.now scan.now) }
{
    bournejade::bournejade_match(condition, adv, scan, comparisons)
}

// Which monitors watch a device, by its address type and address? Answers how many, and the lowest handle; 0 and 0
// where there is none. It reads the state's index alone and refuses nothing: of any octets the first of at most 64
// entries for that device answers.
#[unsafe(no_mangle)]
pub extern "C" fn bournejade_watchers(
    state: &[u8; Whole::SIZE],
    kind: u8,
    address: &[u8; 6],
    lowest: &mut u32,
) -> u32
    ensures value { result
        ≡ watch_count (watch_of (handles_of (mask_for (device kind address.now) state.now))) }
    ensures lowest_after { lowest.new
        ≡ lowest_in (watch_of (handles_of (mask_for (device kind address.now) state.now))) }
{
    bournejade::bournejade_watchers(state, kind, address, lowest)
}
