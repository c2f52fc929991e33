// The program of the month's end: `month [--csv] [IMAGE JOURNAL ..] [--rows FILE ..]` restores each image, counts its
// journal a line at a time, reads each file of rows back and writes the sixteen rows, those of several sites joined
// (document 02, T-09 and T-10): a table, or comma-separated values. Where a journal stopped, the refusal's number
// follows on a line; a refused image or a refused join gives only the number. What is counted, joined, written and
// read back is the crates' month and sheets; here are files and arguments.
#![tactic(auto)]

mod journal;
mod rows;
mod site;

ghost use Rattle.std.specs.Prelude.{◌≤◌};

use month::Uncounted;
use outside::STDERR;
use shell::Status;
use texts::Text;
use totals::Row;

// The rows so far, and the number of the refusal that stopped the last journal, where one did.
#[derive(Clone, Copy)]
pub struct Month {
    pub rows: [Row; Row::TABLE],
    pub stopped: Option<u8>,
}

// Why there are no rows: a file failed, and has told its own status, or an image or a join was refused by a number.
#[derive(Clone, Copy)]
pub enum End {
    Failed,
    Refused(u8),
}

fn usage() {
    io::write_all(
        STDERR,
        b"usage: month [--csv] [IMAGE JOURNAL ..] [--rows FILE ..]\n",
    );
    shell::tell(Status::Usage);
}

// Writes a word of the command on standard error, behind a mark.
fn tell(rt: &HostRuntime, mark: &[u8], at: usize) {
    let mut buf = io::buffer();
    let n = outside::word(rt, at, &mut buf);
    io::write_all(STDERR, mark);
    io::write_all(STDERR, &buf[..n]);
}

// A refused join: which site, named by its first and its last word, and which handle.
fn unjoined(rt: &HostRuntime, first: usize, last: usize, h: usize) {
    tell(rt, b"month: a total would pass 64 bits: ", first);
    if first != last {
        tell(rt, b" ", last);
    }
    io::write_all(STDERR, b", handle ");
    io::print_decimal(STDERR, h as u64);
    io::write_all(STDERR, b"\n");
}

// One site's rows joined to those so far.
fn with_site(
    rt: &HostRuntime,
    all: Month,
    one: Month,
    first: usize,
    last: usize,
) -> Result<Month, End> {
    match sheets::join(all.rows, one.rows) {
        Ok(rows) => Ok(Month {
            rows,
            stopped: one.stopped,
        }),
        Err(h) => {
            unjoined(rt, first, last, h);
            Err(End::Refused(Uncounted::PASSES))
        }
    }
}

// The site of an image's name and a journal's, counted.
fn named(rt: &HostRuntime, first: usize, second: usize, progress: bool) -> Result<Month, End> {
    let mut image = io::buffer();
    let n = outside::word(rt, first, &mut image);
    let mut name = io::buffer();
    let k = outside::word(rt, second, &mut name);
    site::counted(rt, &image[..n], &name[..k], progress)
}

// The site of a file of rows, read back.
fn listed(rt: &HostRuntime, at: usize) -> Result<Month, End> {
    let mut name = io::buffer();
    let n = outside::word(rt, at, &mut name);
    site::read_back(rt, &name[..n])
}

// The sites counted, in order; the first that does not run through ends it.
fn pairs(rt: &HostRuntime, first: usize, end: usize, progress: bool) -> Result<Month, End> {
    let mut all = Month {
        rows: totals::no_rows(),
        stopped: None,
    };
    let mut at = first;
    while at < end {
        if all.stopped.is_some() {
            return Ok(all);
        }
        let one = named(rt, at, at + 1, progress)?;
        all = with_site(rt, all, one, at, at + 1)?;
        if end - at < 2 {
            return Ok(all);
        }
        at += 2;
    }
    Ok(all)
}

// The files of rows behind them, the same.
fn files(rt: &HostRuntime, before: Month, first: usize, end: usize) -> Result<Month, End> {
    let mut all = before;
    for at in first..end {
        if all.stopped.is_some() {
            return Ok(all);
        }
        let one = listed(rt, at)?;
        all = with_site(rt, all, one, at, at)?;
    }
    Ok(all)
}

// Whether a refusal's number was written.
fn put_number(rt: &HostRuntime, number: u8) -> bool {
    let t = Text::blank().said(b"", number as u64);
    shell::show(rt, t.with(b"\n"))
}

// The exit status of a refusal's number: a total would pass 64 bits, or an image was refused.
fn refused(number: u8) -> Status {
    if number == Uncounted::PASSES {
        Status::Passes
    } else {
        Status::Refused
    }
}

// A number written, and the exit status behind it.
fn show_number(rt: &HostRuntime, number: u8, status: Status) {
    if put_number(rt, number) {
        shell::tell(status);
    } else {
        shell::tell(Status::Failed);
    }
}

// The rows written, with the number of the refusal that stopped them, and the exit status.
fn show_rows(rt: &HostRuntime, all: Month, csv: bool) {
    if !rows::show(rt, all.rows, csv) {
        shell::tell(Status::Failed);
        return;
    }
    match all.stopped {
        Some(number) => show_number(rt, number, Status::Stopped),
        None => shell::tell(Status::Through),
    }
}

// What is written of the sites, and the exit status.
fn show(rt: &HostRuntime, all: Result<Month, End>, csv: bool) {
    match all {
        Ok(all) => show_rows(rt, all, csv),
        Err(End::Refused(number)) => show_number(rt, number, refused(number)),
        Err(End::Failed) => {}
    }
}

// Where `--rows` stands among the words, if it does.
fn rows_word(rt: &HostRuntime, first: usize, words: usize) -> Option<usize> {
    for at in first..words {
        if shell::is(rt, at, b"--rows") {
            return Some(at);
        }
    }
    None
}

// How many words are a dash.
fn dashes(rt: &HostRuntime, first: usize, words: usize) -> u64 {
    let mut count = 0;
    for at in first..words {
        if shell::is(rt, at, b"-") {
            count = std::num::wrapping_add_u64(count, 1);
        }
    }
    count
}

// The sites counted up to the mark, and the files of rows behind it.
fn sites(
    rt: &HostRuntime,
    first: usize,
    mark: Option<usize>,
    words: usize,
    progress: bool,
) -> Result<Month, End> {
    match mark {
        Some(mark) if mark < words => {
            let counted = pairs(rt, first, mark, progress)?;
            files(rt, counted, mark + 1, words)
        }
        _ => pairs(rt, first, words, progress),
    }
}

fn run(rt: &HostRuntime, first: usize, words: usize, csv: bool, progress: bool) {
    let mark = rows_word(rt, first, words);
    if !sheets::are_sites(first, mark, words) {
        usage();
        return;
    }
    if 1 < dashes(rt, first, words) {
        usage();
        return;
    }
    show(rt, sites(rt, first, mark, words, progress), csv);
}

// The options before the names.
fn begin(rt: &HostRuntime, first: usize, words: usize, progress: bool)
    requires { first ≤ 2 }
{
    if shell::is(rt, first, b"--csv") {
        run(rt, first + 1, words, true, progress);
        return;
    }
    run(rt, first, words, false, progress);
}

fn main(rt: HostRuntime) {
    let words = outside::word_count(&rt);
    if shell::is(&rt, 1, b"--progress") {
        begin(&rt, 2, words, true);
        return;
    }
    begin(&rt, 1, words, false);
}
