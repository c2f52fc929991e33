// Rows written to standard output, with what stands around them.
use crate::drawing::{Unwritten, done};
use crate::picture;
use bars::Kept;
use shell::Status;
use stays::{Row, Style};

// What the record is written as: rows of a style, or a picture.
#[derive(Clone, Copy, PartialEq, Eq)]
pub enum Output {
    Rows(Style),
    Picture,
}

// What the record is written by, and how; the time of day at the first tick, where it is known.
#[derive(Clone, Copy)]
pub struct Form {
    pub rt: HostRuntime,
    pub output: Output,
    pub clock: Option<u32>,
}

// What was written; where it was not, the status is told.
fn wrote(r: Result<(), Unwritten>) -> Result<(), Unwritten> {
    if r.is_err() {
        shell::tell(Status::Failed);
    }
    r
}

impl Form {
    // Words written.
    fn put(&self, words: &[u8]) -> Result<(), Unwritten> {
        wrote(done(outside::put(&self.rt, words)))
    }

    // The table's first line.
    fn heads(&self) -> Result<(), Unwritten> {
        self.put(b"DEVICE             TYPE    MONITOR  FROM FRAME  FROM           ")?;
        self.put(b"TO FRAME    TO             ENDED        PACKETS     MEAN RSSI\n")
    }

    // What stands before the rows.
    pub fn open(&self) -> Result<(), Unwritten> {
        match self.output {
            Output::Rows(Style::Table) => self.heads(),
            Output::Rows(Style::Csv) => self.put(
                b"device,type,monitor,start_frame,start,stop_frame,stop,ended,packets,mean_rssi\n",
            ),
            Output::Rows(Style::Json) => self.put(b"["),
            Output::Picture => Ok(()),
        }
    }

    // What stands behind them: the picture, where one is drawn.
    pub fn close(&self, kept: &Kept, count: u64, tick: u32) -> Result<(), Unwritten> {
        match self.output {
            Output::Picture => wrote(picture::draw(&self.rt, kept, count, tick, self.clock)),
            Output::Rows(Style::Json) if count == 0 => self.put(b"]\n"),
            Output::Rows(Style::Json) => self.put(b"\n]\n"),
            Output::Rows(_) => Ok(()),
        }
    }

    // What stands between two.
    fn between(&self, style: Style, count: u64) -> Result<(), Unwritten> {
        match style {
            Style::Json if count == 0 => self.put(b"\n"),
            Style::Json => self.put(b",\n"),
            _ => Ok(()),
        }
    }

    // A visit's row, behind so many others: written, or kept for a picture.
    pub fn show(&self, kept: &mut Kept, count: u64, row: Row) -> Result<(), Unwritten> {
        match self.output {
            Output::Picture => {
                kept.keep(count, row);
                Ok(())
            }
            Output::Rows(style) => {
                self.between(style, count)?;
                wrote(done(shell::show(&self.rt, stays::written(style, self.clock, row))))
            }
        }
    }
}
