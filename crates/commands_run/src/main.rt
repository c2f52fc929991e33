// Runs vendor commands on a block of state and shows each answer, and the state at the end of a session as its image.
// Standard input holds lines of upper-case hexadecimal; the first octet says what a line is: 00 an empty block, 01
// octets written into the block at an offset of two octets, 02 a command's parameters, 03 the image is to be shown.
// Other lines are passed over. The sessions and their answers are made by vectors.py, which asks the independent
// implementation.
#![tactic(auto)]

use state::State;
use vectors::MARK;

fn answer(params: &[u8], s: &mut [u8]) {
    let mut out = [MARK; 2880];
    let n = commands::command(s, params, &mut out);
    if let Some((written, rest)) = out.split_at_checked(n) {
        vectors::show(written);
        vectors::show_changed(rest);
    }
}

fn poke(o: &[u8], s: &mut [u8]) {
    if let Some((at, octets)) = o.split_first_chunk::<2>() {
        parts::copy(s, u16::from_le_bytes(*at) as usize, octets);
    }
}

// The image of the state.
fn image(s: &[u8]) {
    let mut text = [0u8; State::IMAGE];
    let n = save::save_image(s, &mut text);
    if let Some(written) = text.get(..n) {
        io::write_all(1, written);
    }
}

fn perform(o: &[u8], s: &mut [u8]) {
    match o {
        [0, ..] => s.fill(0),
        [1, rest @ ..] => poke(rest, s),
        [2, params @ ..] => answer(params, s),
        [3, ..] => image(s),
        _ => {}
    }
}

fn line(text: &[u8], s: &mut [u8]) {
    let mut octets = [0u8; 300];
    if let Ok(n) = reader::take_text(text, &mut octets) {
        if let Some(o) = octets.get(..n) {
            perform(o, s);
        }
    }
}

fn main() {
    let mut buffer = io::large_buffer();
    let mut s = [0u8; State::SIZE];
    let n = io::read_full(0, &mut buffer);
    for text in buffer[..n].split_inclusive(|c| *c == lines::LF) {
        line(text, &mut s);
    }
}
