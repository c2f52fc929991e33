// What a picture's parts are written with.
use stays::Row;
use texts::Text;

// Where the lanes begin, and how high one is.
pub(super) const TOP: u64 = 100;

pub(super) const LANE: u64 = 16;

// The monitors' handles.
pub(super) const HANDLES: u64 = 16;

// Standard output does not take what is written.
#[derive(Clone, Copy)]
pub struct Unwritten;

// What is drawn: the rows that are kept, how many rows there are in all, the span, the time of day at the first tick.
#[derive(Clone, Copy)]
pub struct Scene<'a> {
    pub kept: &'a [Option<Row>],
    pub rows: u64,
    pub span: u32,
    pub clock: Option<u32>,
}

// What it is written by, and where the next lane is.
#[derive(Clone, Copy)]
pub struct Pen {
    pub rt: HostRuntime,
    pub y: u64,
}

// Whether all was written, as a result.
pub(super) fn done(good: bool) -> Result<(), Unwritten> {
    if good { Ok(()) } else { Err(Unwritten) }
}

impl Pen {
    // A text written.
    pub fn put(&self, t: Text) -> Result<(), Unwritten> {
        done(shell::show(&self.rt, t))
    }

    // Words written.
    pub fn say(&self, text: &[u8]) -> Result<(), Unwritten> {
        done(outside::put(&self.rt, text))
    }
}

// A sum that is far below the greatest number.
pub(super) fn sum(a: u64, b: u64) -> u64 {
    a.wrapping_add(b)
}

// The beginning of a text at a place.
pub(super) fn text_at(x: u64, y: u64, class: &[u8]) -> Text {
    let a = Text::blank().said(b"<text x=\"", x);
    let b = a.said(b"\" y=\"", y);
    let c = b.with(b"\" class=\"");
    c.with(class).with(b"\">")
}

// A rectangle of a class with a number.
pub(super) fn rect(x: u64, y: u64, width: u64, form: &[u8], n: u64) -> Text {
    let a = Text::blank().said(b"<rect x=\"", x);
    let b = a.said(b"\" y=\"", y);
    let c = b.said(b"\" width=\"", width);
    let d = c.with(b"\" ").said(form, n);
    d.with(b"\"/>")
}
