// What an executed frame and its answer do to the record: a row for each visit that ends. What a frame says to the
// book of open visits is visit::frames'.
use crate::rows::Form;
use bars::Kept;
use index::Whole;
use state::State;
use stays::Row;
use visit::{Book, End, Range, Visit, frames};

// Where the journal is: what the rows are written by, those that are kept, the open visits, the ticks, the lines and
// the rows so far, and whether to go on.
// Kept: `goes` is a flag, for each row of a frame is tried, also behind one that could not be written.
#[derive(Drop)]
pub struct Run {
    pub form: Form,
    pub kept: Kept,
    pub book: Book,
    pub ticks: u32,
    pub lines: u64,
    pub rows: u64,
    pub goes: bool,
}

impl Run {
    // A run before the journal's first line.
    pub fn fresh(form: Form, block: &[u8; Whole::SIZE]) -> Run {
        Run {
            form,
            kept: Kept::new(),
            book: frames::begun(block),
            ticks: 0,
            lines: 0,
            rows: 0,
            goes: true,
        }
    }

    // The tick that the journal is at.
    pub fn tick(&self) -> u32 {
        frames::tick_of(self.ticks)
    }

    // A row of a closed visit.
    fn ended(&mut self, visit: Visit, frame: u32, how: End) {
        let row = Row {
            visit,
            frame,
            tick: self.tick(),
            how,
        };
        let form = self.form;
        self.goes = form.show(&mut self.kept, self.rows, row).is_ok();
        self.rows = self.rows.wrapping_add(1);
    }

    // The events of an answer.
    // Kept: the loop counts by itself, for each event says how long it is.
    fn walk(&mut self, frame: &[u8], answer: &[u8]) {
        let number = frames::number_of(frame);
        let how = frames::end_of(frame);
        let tick = self.tick();
        let n = answer.len();
        let mut at = 0;
        while at < n {
            let e = at + captures::event_octets(answer, at);
            if let Some(visit) = self.book.follow(&answer[at..e], number, tick) {
                self.ended(visit, number, how);
            }
            at = e;
        }
    }

    // The visits of a range closed, at most as many as the book has.
    pub fn close_all(&mut self, range: Range, number: u32, how: End) {
        for _ in 0..State::PAIRS {
            if let Some(visit) = self.book.close(range) {
                self.ended(visit, number, how);
            }
        }
    }

    // What an executed frame does: its tick, the answer's events, a cancel, a packet heard.
    pub fn executed(&mut self, frame: &[u8], answer: &[u8]) {
        self.ticks = frames::ticks_with(self.ticks, frame);
        self.walk(frame, answer);
        if let Some(range) = frames::cancelled(frame, answer) {
            self.close_all(range, frames::number_of(frame), End::Cancelled);
        }
        frames::hear(&mut self.book, frame);
    }
}
