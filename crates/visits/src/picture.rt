// The service record as a picture (--svg): the kept rows as bars, machines as rows of it, a lane for each monitor
// that watched one.
ghost use Rattle.std.specs.Prelude.{◌≤◌};

use crate::drawing::{Pen, Scene, Unwritten};
use crate::{axis, drawing, legend};
use bars::Kept;
use stays::{Row, Style};
use texts::Text;

// Where labels begin; where a lane's label, its bar and the strip under the bar are; what stands below the lanes;
// ticks of a second.
const MARGIN: u64 = 8;

const LABEL: u64 = 12;

const BAR: u64 = 2;

const STRIP: u64 = 10;

const FOOT: u64 = 48;

const SECOND: u32 = 10;

// A visit: its row in words, its bar by its monitor, under it a strip by its end.
fn visit_drawn(pen: &Pen, scene: Scene, row: Row) -> Result<(), Unwritten> {
    let at = bars::bar(row, scene.span);
    pen.say(b"<g><title>")?;
    pen.put(stays::written(Style::Csv, scene.clock, row))?;
    pen.say(b"</title>")?;
    let handle = row.visit.key / visit::DEVICES;
    let y = drawing::sum(pen.y, BAR);
    let form = b"height=\"8\" class=\"m";
    pen.put(drawing::rect(at.x, y, at.width, form, handle))?;
    let y = drawing::sum(pen.y, STRIP);
    let form = b"height=\"4\" class=\"e";
    pen.put(drawing::rect(at.x, y, at.width, form, row.how.number() as u64))?;
    pen.say(b"</g>\n")
}

// The lane of a device and a handle, where it has visits.
fn lane(pen: &mut Pen, scene: Scene, device: u64, handle: u64) -> Result<(), Unwritten> {
    let mut high = 0;
    for place in scene.kept {
        if let Some(row) = place {
            if bars::is_of(row, device, Some(handle)) {
                visit_drawn(pen, scene, *row)?;
                high = drawing::LANE;
            }
        }
    }
    pen.y = drawing::sum(pen.y, high);
    Ok(())
}

// A machine: a line above it, its address, its lanes.
fn machine(pen: &mut Pen, scene: Scene, device: u64) -> Result<(), Unwritten> {
    let edge = Text::blank().said(b"<path class=\"r\" d=\"M8 ", pen.y);
    pen.put(edge.with(b"H1190\"/>\n"))?;
    let start = drawing::text_at(MARGIN, drawing::sum(pen.y, LABEL), b"a");
    let label = start.address(device);
    let kind = label.with(b" ").kind(device);
    pen.put(kind.with(b"</text>\n"))?;
    for handle in 0..drawing::HANDLES {
        lane(pen, scene, device, handle)?;
    }
    Ok(())
}

// Whether a row is the first of its device behind others, or of its device and handle.
fn is_first(before: &[Option<Row>], row: &Row, whole: bool) -> bool {
    let key = row.visit.key;
    let handle = if whole {
        Some(key / visit::DEVICES)
    } else {
        None
    };
    bars::next(before, key % visit::DEVICES, handle).is_none()
}

// How many of the kept rows are.
fn firsts(kept: &[Option<Row>], whole: bool) -> u64 {
    let mut count = 0;
    for i in 0..kept.len() {
        if let Some(row) = &kept[i] {
            if is_first(&kept[..i], row, whole) {
                count = drawing::sum(count, 1);
            }
        }
    }
    count
}

// The machines, in the order of the record's rows.
fn machines(pen: &mut Pen, scene: Scene) -> Result<(), Unwritten> {
    let kept = scene.kept;
    for i in 0..kept.len() {
        if let Some(row) = &kept[i] {
            if is_first(&kept[..i], row, false) {
                machine(pen, scene, row.visit.key % visit::DEVICES)?;
            }
        }
    }
    Ok(())
}

// How many rows are kept.
fn kept_of(rows: u64) -> usize
    ensures { result ≤ 4096 }
{
    if rows < bars::MOST as u64 {
        return rows as usize;
    }
    bars::MOST
}

// How high the lanes are.
fn high(kept: &[Option<Row>]) -> u64 {
    if kept.is_empty() {
        return drawing::LANE;
    }
    firsts(kept, true).wrapping_mul(drawing::LANE)
}

// The picture of so many rows, those that are kept, up to a tick.
pub(super) fn draw(
    rt: &HostRuntime,
    all: &Kept,
    rows: u64,
    tick: u32,
    clock: Option<u32>,
) -> Result<(), Unwritten> {
    let scene = Scene {
        kept: &all.rows[..kept_of(rows)],
        rows,
        span: tick.max(SECOND),
        clock,
    };
    let bottom = drawing::sum(drawing::TOP, high(scene.kept));
    let mut pen = Pen { rt: *rt, y: bottom };
    legend::sized(&pen, drawing::sum(bottom, FOOT))?;
    legend::styles(&pen)?;
    legend::title(&pen, scene, firsts(scene.kept, false))?;
    legend::monitors(&pen)?;
    legend::ends(&pen)?;
    axis::axis(&pen, scene)?;
    legend::foot(&pen, scene)?;
    pen.y = drawing::TOP;
    machines(&mut pen, scene)?;
    pen.say(b"</svg>\n")
}
