// Makes the calls of a script but replay, on the script's block: start, give a frame as octets or as its line, save,
// write a line, restore, fail over, add an edition of the prefix, take up a block.
use super::seen;
use super::seen::Tally;
use index::Whole;

// Octets of a block.
const SIZE: usize = Whole::SIZE;

// Octets of an edition's number.
const NUMBER: usize = 4;

// The block of a state that a call returned is the next call's.
fn hold(block: &mut [u8; Whole::SIZE], state: Whole) {
    let held = state.block;
    *block = held;
}

// Starts with settings.
pub(super) fn start(block: &mut [u8; Whole::SIZE], opcode: u16, prefix: &[u8], t: Tally) -> Tally {
    let begun = Whole::fresh(opcode, prefix);
    hold(block, begun.state);
    seen::bare(t, begun.answer)
}

// Gives a frame as octets.
pub(super) fn submit(
    block: &mut [u8; Whole::SIZE],
    frame: &[u8],
    out: &mut [u8],
    t: Tally,
) -> Tally {
    seen::mark(out);
    let r = engine::submit(block, frame, out);
    seen::answered(t, out, r)
}

// Gives a frame as its line.
pub(super) fn submit_line(
    block: &mut [u8; Whole::SIZE],
    text: &[u8],
    out: &mut [u8],
    t: Tally,
) -> Tally {
    seen::mark(out);
    let r = engine::submit_line(block, text, out);
    seen::answered(t, out, r)
}

// Saves an image.
pub(super) fn save(block: &[u8; Whole::SIZE], out: &mut [u8], t: Tally) -> Tally {
    seen::mark(out);
    let r = engine::save(block, out);
    seen::answered(t, out, r)
}

// Writes the line of a frame's octets.
pub(super) fn write_line(frame: &[u8], out: &mut [u8], t: Tally) -> Tally {
    seen::mark(out);
    let r = lines::write_line(frame, out);
    seen::answered(t, out, r)
}

// Restores an image.
pub(super) fn restore(block: &mut [u8; Whole::SIZE], text: &[u8], t: Tally) -> Tally {
    let restored = engine::load(text);
    hold(block, restored.state);
    seen::bare(t, restored.answer)
}

// Restores the image that was saved at an output's start. What is seen of it is the refusal alone.
fn restore_saved(block: &mut [u8; Whole::SIZE], out: &[u8], n: usize, t: Tally) -> Tally {
    match out.get(..n) {
        Some(text) => restore(block, text, t),
        None => seen::closed(t, seen::took(seen::opened(t), out, n), 0),
    }
}

// Saves an image and restores it.
pub(super) fn fail_over(block: &mut [u8; Whole::SIZE], out: &mut [u8], t: Tally) -> Tally {
    seen::mark(out);
    let r = engine::save(block, out);
    match r {
        Ok(n) => restore_saved(block, out, n, t),
        Err(_) => seen::answered(t, out, r),
    }
}

// Asks which monitors watch a device: two octets, how many and the lowest handle, or none.
pub(super) fn ask(block: &[u8; Whole::SIZE], device: &[u8], t: Tally) -> Option<Tally> {
    if device.len() != Whole::DEVICE {
        return None;
    }
    let (kind, rest) = device.split_first()?;
    let address = rest.first_chunk::<6>()?;
    match index::ask(block, *kind, address) {
        Some(w) => {
            let said = [(w.count % 256) as u8, (w.lowest % 256) as u8];
            Some(seen::closed(t, seen::took(seen::opened(t), &said, 2), 0))
        }
        None => Some(seen::bare(t, Ok(()))),
    }
}

// Adds an edition of the prefix: its number in four octets, then the prefix.
pub(super) fn add(block: &mut [u8; Whole::SIZE], given: &[u8], t: Tally) -> Option<Tally> {
    let (number, prefix) = given.split_first_chunk::<NUMBER>()?;
    let r = engine::add(block, u32::from_le_bytes(*number), prefix);
    Some(seen::bare(t, r.map(|_| ())))
}

// What the next octet of a packed block is, and at which octet of the block it goes on: an octet, or how many zeros
// stand there.
#[derive(Clone, Copy)]
enum Place {
    Octet(usize),
    Zeros(usize),
}

// How far n octets after an index are, in a block.
fn after(at: usize, n: u8) -> usize {
    (at % SIZE + usize::from(n)) % SIZE
}

// Lays one octet of a packed block: a 0 and a number stand for so many zeros, any other octet for itself.
fn lay(block: &mut [u8; Whole::SIZE], x: u8, p: Place) -> Place {
    match p {
        Place::Zeros(at) => Place::Octet(after(at, x)),
        Place::Octet(at) if x == 0 => Place::Zeros(at),
        Place::Octet(at) => {
            octets::put8(block, at, x);
            Place::Octet(after(at, 1))
        }
    }
}

// Lays a packed block over zeros.
fn unpack(block: &mut [u8; Whole::SIZE], packed: &[u8]) {
    let mut p = Place::Octet(0);
    for x in packed {
        p = lay(block, *x, p);
    }
}

// Takes up a block, whatever its octets.
pub(super) fn adopt(block: &mut [u8; Whole::SIZE], packed: &[u8], t: Tally) -> Tally {
    block.fill(0);
    unpack(block, packed);
    seen::bare(t, Ok(()))
}
