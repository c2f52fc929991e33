// Runs vectors through the crates lines and reader, one line of output for each: the line, or the refusal's number
// (document 01, Lines, Refusal numbers, A session in full). What it must write stands in stdout, which is written
// from the document by hand.
#![tactic(auto)]

use refusals::Refusal;
use vectors::MARK;

// What a call wrote into a marked output, or the number of its refusal.
fn show_answer(w: Result<usize, Refusal>, out: &[u8]) {
    match w {
        Ok(n) => {
            if let Some((written, rest)) = out.split_at_checked(n) {
                io::write_all(1, written);
                vectors::show_changed(rest);
            }
        }
        Err(r) => {
            vectors::show_number(r);
            vectors::show_changed(out);
        }
    }
}

// Octets written as a line into the lent octets.
fn write_into(label: &[u8], octets: &[u8], out: &mut [u8]) {
    io::write_all(1, label);
    out.fill(MARK);
    show_answer(lines::write_line(octets, out), out);
}

fn show_written(label: &[u8], octets: &[u8], room: usize) {
    let mut out = io::buffer();
    if let Some(lent) = out.get_mut(..room) {
        write_into(label, octets, lent);
    }
}

// The octets that a line held, written again.
fn show_line(label: &[u8], octets: &[u8], n: usize) {
    if let Some((held, rest)) = octets.split_at_checked(n) {
        show_written(label, held, 527);
        vectors::show_changed(rest);
    }
}

fn show_frame(label: &[u8], octets: &[u8; 263], w: Result<usize, Refusal>) {
    match w {
        Ok(n) => show_line(label, octets, n),
        Err(r) => {
            io::write_all(1, label);
            vectors::show_number(r);
        }
    }
}

// The first n octets where they are a frame's.
fn frame_of(octets: &[u8], n: usize) -> Result<usize, Refusal> {
    match octets.get(..n) {
        Some(frame) if lines::is_frame(frame) => Ok(n),
        _ => Err(Refusal::NotLine),
    }
}

// A text read as the line of a frame.
fn read_frame(text: &[u8], octets: &mut [u8]) -> Result<usize, Refusal> {
    let n = reader::take_text(text, octets)?;
    frame_of(octets, n)
}

// A line read, and its octets written again.
fn show_read(label: &[u8], text: &[u8]) {
    let mut octets = [MARK; 263];
    let w = read_frame(text, &mut octets);
    show_frame(label, &octets, w);
}

// The text of octets read as a line.
fn read_text_of(label: &[u8], octets: &[u8], text: &mut [u8]) {
    if lines::put_text(text, 0, octets) {
        if let Some(line) = text.get(..2 * octets.len() + 1) {
            show_read(label, line);
        }
    }
}

fn show_text_of(label: &[u8], octets: &[u8]) {
    let mut text = [0u8; 529];
    read_text_of(label, octets, &mut text);
}

// The octets that a text held, written again.
fn put_again(octets: &[u8], out: &mut [u8]) {
    out.fill(MARK);
    if lines::put_text(out, 0, octets) {
        show_answer(Ok(2 * octets.len() + 1), out);
    }
}

fn text_again(octets: &[u8], n: usize) {
    let mut out = [0u8; 527];
    if let Some((held, rest)) = octets.split_at_checked(n) {
        put_again(held, &mut out);
        vectors::show_changed(rest);
    }
}

fn take_into(text: &[u8], octets: &mut [u8]) {
    octets.fill(MARK);
    match reader::take_text(text, octets) {
        Ok(n) => text_again(octets, n),
        Err(r) => vectors::show_number(r),
    }
}

// A text of any length read into room octets, and its octets written again.
fn show_text(label: &[u8], text: &[u8], room: usize) {
    let mut octets = io::buffer();
    io::write_all(1, label);
    if let Some(lent) = octets.get_mut(..room) {
        take_into(text, lent);
    }
}

// The lines of "A session in full": its frames, its answers, the fresh image and the image after them.
fn session() {
    show_read(b"frame: ", b"01010000001EFC0D03C4B003000400060504030201\n");
    show_read(b"frame: ", b"0202000000000006050403020100C4\n");
    show_read(b"answer as a frame: ", b"0E06011EFC000300\n");
    show_text(b"answer: ", b"0E06011EFC000300\n", 263);
    show_text(b"answer: ", b"FF0C4D5302000605040302010001\n", 263);
    show_text(b"answer: ", b"3E0C0201000006050403020100C4\n", 263);
    show_text(b"fresh: ", b"A000000000001EFC024D53\n", 263);
    show_text(b"fresh: ", b"AF0000\n", 263);
    show_text(b"image: ", b"A002000000001EFC024D53\n", 263);
    show_text(b"image: ", b"A100C4B00300040700060504030201\n", 263);
    show_text(
        b"image: ",
        b"A30000060504030201000000000000000000000000000000C40000\n",
        263,
    );
    show_text(b"image: ", b"AF0101\n", 263);
}

// A command's octets written from octets, into 527, 526 and no octets.
fn rooms() {
    let frame = [2, 2, 0, 0, 0, 0, 0, 6, 5, 4, 3, 2, 1, 0, 196];
    show_written(b"room 527: ", &frame, 527);
    show_written(b"room 526: ", &frame, 526);
    show_written(b"room 0: ", &frame, 0);
    show_written(b"room 526, no frame: ", &frame[..4], 526);
    show_written(b"room 527, no frame: ", &frame[..4], 527);
}

// Frames of 0, 4, 5, 263 and 264 octets, from octets and from their texts.
fn lengths() {
    let mut frame = [0u8; 264];
    frame[0] = 1;
    frame[262] = 171;
    show_written(b"0 octets: ", &frame[..0], 527);
    show_written(b"4 octets: ", &frame[..4], 527);
    show_written(b"5 octets: ", &frame[..5], 527);
    show_written(b"263 octets: ", &frame[..263], 527);
    show_written(b"264 octets: ", &frame, 600);
    show_text_of(b"text of 4: ", &frame[..4]);
    show_text_of(b"text of 5: ", &frame[..5]);
    show_text_of(b"text of 263: ", &frame[..263]);
    show_text_of(b"text of 264: ", &frame);
}

// Every kind from 0 to 5, from octets and from its text.
fn kinds() {
    show_written(b"kind 0: ", &[0, 1, 0, 0, 0], 527);
    show_written(b"kind 1: ", &[1, 1, 0, 0, 0], 527);
    show_written(b"kind 2: ", &[2, 1, 0, 0, 0], 527);
    show_written(b"kind 3: ", &[3, 1, 0, 0, 0], 527);
    show_written(b"kind 4: ", &[4, 1, 0, 0, 0], 527);
    show_written(b"kind 5: ", &[5, 1, 0, 0, 0], 527);
    show_read(b"text of kind 0: ", b"0001000000\n");
    show_read(b"text of kind 1: ", b"0101000000\n");
    show_read(b"text of kind 2: ", b"0201000000\n");
    show_read(b"text of kind 3: ", b"0301000000\n");
    show_read(b"text of kind 4: ", b"0401000000\n");
    show_read(b"text of kind 5: ", b"0501000000\n");
    show_read(b"text of kind 17: ", b"1101000000\n");
}

// Characters beside the digits.
fn characters() {
    show_read(b"digits: ", b"010123456789ABCDEF\n");
    show_read(b"lower case: ", b"010a000000\n");
    show_read(b"upper case: ", b"010A000000\n");
    show_read(b"before 0: ", b"010/000000\n");
    show_read(b"after 9: ", b"010:000000\n");
    show_read(b"before A: ", b"010@000000\n");
    show_read(b"after F: ", b"010G000000\n");
}

// Odd digits, and other ends than one LF.
fn ends() {
    show_read(b"odd digits: ", b"01010000000\n");
    show_read(b"no LF: ", b"0101000000");
    show_read(b"no LF, odd digits: ", b"01010000000");
    show_read(b"two LFs: ", b"0101000000\n\n");
    show_read(b"three LFs: ", b"0101000000\n\n\n");
    show_read(b"LF inside: ", b"010100\n0000\n");
    show_read(b"CR LF: ", b"0101000000\r\n");
    show_read(b"CR for LF: ", b"0101000000\r");
}

// Blanks, and texts of no octets.
fn blanks() {
    show_read(b"blank before: ", b" 0101000000\n");
    show_read(b"blank inside: ", b"0101 000000\n");
    show_read(b"blank after: ", b"0101000000 \n");
    show_read(b"two blanks inside: ", b"01  01000000\n");
    show_read(b"empty: ", b"");
    show_read(b"LF alone: ", b"\n");
}

// Texts of any length: none, and as many octets as are lent or one more.
fn texts() {
    show_text(b"LF alone as a text: ", b"\n", 263);
    show_text(b"empty as a text: ", b"", 263);
    show_text(b"into 3 octets: ", b"AF0101\n", 3);
    show_text(b"into 2 octets: ", b"AF0101\n", 2);
}

// The number of every refusal that a line or an image can meet.
fn numbers() {
    let refusals = [
        Refusal::Seen,
        Refusal::Gap,
        Refusal::Short,
        Refusal::NotLine,
        Refusal::BadPayload,
        Refusal::OtherOpcode,
        Refusal::Unsound,
        Refusal::BadSettings,
        Refusal::NotImage,
    ];
    for r in refusals {
        vectors::show_number(r);
    }
}

fn main() {
    session();
    rooms();
    lengths();
    kinds();
    characters();
    ends();
    blanks();
    texts();
    numbers();
}
