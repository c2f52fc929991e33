// The time axis of a picture.
use crate::drawing;
use crate::drawing::{Pen, Scene, Unwritten};
use texts::Text;

// Marks at most; ticks of a minute and a day; characters of a time's tenths, and of its seconds and tenths; how far
// above the lanes times are.
const MARKS: u64 = 14;

const MINUTE: u64 = 600;

const DAY: u64 = 864000;

const TENTHS: usize = 2;

const SECONDS: usize = 5;

const ABOVE: u64 = 6;

// A mark's time: without what is naught in it.
fn mark_text(t: Text, clock: Option<u32>, tick: u32, step: u64) -> Text {
    let cut = if MINUTE <= step { SECONDS } else { TENTHS };
    match clock {
        Some(from) => {
            let ticks = from as u64 + tick as u64;
            let time = bars::shorter(t.time(ticks % DAY), cut);
            stays::day(time, ticks / DAY)
        }
        None => bars::shorter(t.time(tick as u64), cut),
    }
}

// A mark of the axis at a tick: a line, its time above and below.
fn mark(pen: &Pen, scene: Scene, tick: u32, step: u64) -> Result<(), Unwritten> {
    let x = drawing::sum(bars::LEFT, bars::across(tick, scene.span));
    let a = Text::blank().said(b"<path class=\"g\" d=\"M", x);
    let b = a.said(b" ", drawing::TOP).said(b"V", pen.y);
    pen.put(b.with(b"\"/>"))?;
    let above = drawing::text_at(x, drawing::TOP - ABOVE, b"t");
    let above = mark_text(above, scene.clock, tick, step);
    pen.put(above.with(b"</text>"))?;
    let below = drawing::text_at(x, drawing::sum(pen.y, drawing::LANE), b"t");
    let below = mark_text(below, scene.clock, tick, step);
    pen.put(below.with(b"</text>\n"))
}

// The axis above and below the lanes.
pub(super) fn axis(pen: &Pen, scene: Scene) -> Result<(), Unwritten> {
    let step = bars::step(scene.span);
    let mut tick = bars::first(scene.clock.unwrap_or(0), step);
    for _ in 0..MARKS {
        if tick <= scene.span as u64 {
            mark(pen, scene, tick as u32, step)?;
        }
        tick = drawing::sum(tick, step);
    }
    Ok(())
}
