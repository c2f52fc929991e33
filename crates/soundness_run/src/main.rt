// Runs the soundness check on blocks. Standard input holds a vector a line, in hexadecimal: how often to check (2
// octets), then parts that are written over the block of a fresh state with opcode 0xFC1E and prefix 4D 53, each with
// its offset (2), its length (2) and its octets. Other lines are passed over. For each vector a line is written: 1 if
// every check found the block sound, else 0. Before each check the highest octet of the position is turned from 0 to
// 1 or back, so that no check can be spared. The vectors and their answers are made by vectors.py, an independent
// program written from document 01.
#![tactic(auto)]

use state::State;

// The parts written over the block, as far as they are whole.
fn patch(block: &mut [u8], parts: &[u8]) {
    let mut rest = parts;
    while let [a, b, c, d, behind @ ..] = rest {
        let at = u16::from_le_bytes([*a, *b]) as usize;
        let k = u16::from_le_bytes([*c, *d]) as usize;
        let Some((part, next)) = behind.split_at_checked(k) else {
            return;
        };
        parts::copy(block, at, part);
        rest = next;
    }
}

// Whether each of so many checks finds the block sound.
fn are_sound(block: &mut [u8], times: u16) -> bool {
    for k in 0..times {
        octets::put8(block, 3, (k % 2) as u8);
        if !soundness::is_sound(block) {
            return false;
        }
    }
    true
}

fn check(parts: &[u8]) {
    let begun = State::fresh(64542, b"MS");
    let state = begun.state;
    let mut block = state.block;
    if let Some(behind) = parts.get(2..) {
        patch(&mut block, behind);
    }
    let good = are_sound(&mut block, octets::get16(parts, 0));
    io::write_all(1, &[b'0' + u8::from(good), b'\n']);
}

fn line(text: &[u8]) {
    let mut buffer = [0u8; 8192];
    if let Ok(n) = reader::take_text(text, &mut buffer) {
        if let Some(parts) = buffer.get(..n) {
            check(parts);
        }
    }
}

fn main() {
    let mut buffer = io::large_buffer();
    let n = io::read_full(0, &mut buffer);
    for text in buffer[..n].split_inclusive(|c| *c == lines::LF) {
        line(text);
    }
}
