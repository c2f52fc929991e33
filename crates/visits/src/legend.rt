// What stands around a picture's lanes: its size, what its classes look like, its title, the legend, and what is not
// drawn.
use crate::drawing;
use crate::drawing::{Pen, Scene, Unwritten};
use texts::Text;
use visit::End;

// Where lines of the legend stand, and what is in them: a mark's width, its words' distance from it, and the next
// one's.
const MARGIN: u64 = 8;

const TITLE: u64 = 24;

const MONITORS: u64 = 50;

const ENDS: u64 = 70;

const MARK: u64 = 12;

const WORDS: u64 = 16;

const NEXT_MONITOR: u64 = 42;

const NEXT_END: u64 = 120;

// How far below the lanes the last line is.
const BELOW: u64 = 36;

// What the picture's classes look like: m and e with a number are a monitor's colour, and that of an end.
pub(super) fn styles(pen: &Pen) -> Result<(), Unwritten> {
    pen.say(
        b"<style>text{font:11px monospace;fill:#333}.h{font:bold 15px sans-serif}.t{text-anchor:middle}.g{stroke:#ddd}.r{stroke:#eee}g rect{stroke:#fff;stroke-width:.5}\n",
    )?;
    pen.say(
        b".m0{fill:#4e79a7}.m1{fill:#f28e2b}.m2{fill:#76b7b2}.m3{fill:#edc948}.m4{fill:#b07aa1}.m5{fill:#ff9da7}.m6{fill:#9c755f}.m7{fill:#a0cbe8}\n",
    )?;
    pen.say(
        b".m8{fill:#8cd17d}.m9{fill:#d37295}.m10{fill:#d4a6c8}.m11{fill:#ffbe7d}.m12{fill:#8a8fe0}.m13{fill:#bcbd22}.m14{fill:#b9b9b9}.m15{fill:#3fc5dc}\n",
    )?;
    pen.say(b".e0{fill:#5f5f5f}.e1{fill:#e00000}.e2{fill:#111199}.e3{fill:#00a000}</style>\n")?;
    pen.say(b"<rect width=\"100%\" height=\"100%\" fill=\"#fff\"/>\n")
}

// The legend: a monitor's colour beside its handle.
pub(super) fn monitors(pen: &Pen) -> Result<(), Unwritten> {
    pen.say(b"<text x=\"8\" y=\"50\">bar: monitor</text>\n")?;
    let mut x = bars::LEFT;
    for handle in 0..drawing::HANDLES {
        let form = b"height=\"8\" class=\"m";
        pen.put(drawing::rect(x, MONITORS - 8, MARK, form, handle))?;
        let label = drawing::text_at(drawing::sum(x, WORDS), MONITORS, b"l");
        let label = label.said(b"", handle);
        pen.put(label.with(b"</text>\n"))?;
        x = drawing::sum(x, NEXT_MONITOR);
    }
    Ok(())
}

// An end's colour beside its words.
pub(super) fn ends(pen: &Pen) -> Result<(), Unwritten> {
    pen.say(b"<text x=\"8\" y=\"70\">strip below: ended by</text>\n")?;
    let mut x = bars::LEFT;
    for how in [End::Silence, End::Full, End::Cancelled, End::There] {
        let form = b"height=\"4\" class=\"e";
        pen.put(drawing::rect(x, ENDS - 6, MARK, form, how.number() as u64))?;
        let label = drawing::text_at(drawing::sum(x, WORDS), ENDS, b"l");
        let label = stays::ended(label, how);
        pen.put(label.with(b"</text>\n"))?;
        x = drawing::sum(x, NEXT_END);
    }
    Ok(())
}

// The picture's size.
pub(super) fn sized(pen: &Pen, height: u64) -> Result<(), Unwritten> {
    pen.say(b"<svg xmlns=\"http://www.w3.org/2000/svg\" width=\"1220\" height=\"")?;
    pen.put(Text::blank().said(b"", height))?;
    let c = Text::blank().said(b"\" viewBox=\"0 0 1220 ", height);
    pen.put(c.with(b"\">\n"))
}

// The title: visits, machines, the journal's span.
pub(super) fn title(pen: &Pen, scene: Scene, count: u64) -> Result<(), Unwritten> {
    let start = drawing::text_at(MARGIN, TITLE, b"h");
    let a = start.said(b"Visits: ", scene.rows);
    let b = a.said(b", machines: ", count);
    let c = stays::moment(b.with(b", from "), scene.clock, 0);
    let d = stays::moment(c.with(b" to "), scene.clock, scene.span);
    pen.put(d.with(b"</text>\n"))
}

// The line below: what is not drawn, and that there is nothing.
pub(super) fn foot(pen: &Pen, scene: Scene) -> Result<(), Unwritten> {
    let y = drawing::sum(pen.y, BELOW);
    if scene.rows == 0 {
        return pen.say(b"<text x=\"8\" y=\"112\" class=\"b\">no visit</text>\n");
    }
    let kept = scene.kept.len() as u64;
    if scene.rows <= kept {
        return Ok(());
    }
    let start = drawing::text_at(MARGIN, y, b"b");
    let a = start.said(b"not drawn: ", scene.rows - kept);
    pen.put(a.with(b" visits more, the last rows of the record</text>\n"))
}
