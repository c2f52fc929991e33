// A text of rows read, word by word. Whether the words are numbers, and the right ones, is not asked: a number that
// passes 64 bits is held at the end of its range.
ghost use Rattle.std.specs.Prelude.{◌-◌, ◌≤◌, ◌≡◌, eqb, pos, length, get_or};
ghost use Rattle.sheets.specs.Sheet.{negative};
ghost use Rattle.sheets.specs.Least.{least_sum, grown as grown_by};
ghost use Rattle.sheets.specs.Reading.{Counted, Summed, Lined, held};

use crate::marks::{MINUS, ZERO};
use totals::Row;

// What stands at a place, a count, a sum or a row, and the place behind what ends it.
#[derive(Clone, Copy)]
struct Found<T> {
    value: T,
    next: usize,
}

// A digit's value; 0 of an octet below the digits.
fn digit(c: u8) -> u64
    ensures { result ≡ c - 48 }
{
    u64::from(c.saturating_sub(ZERO))
}

// A value and a further digit.
fn grown(value: u64, d: u64) -> u64
    ensures { result ≡ grown_by value d }
{
    value.saturating_mul(10).saturating_add(d)
}

fn count_at(text: &[u8], at: usize) -> Found<u64>
    requires { at ≤ length text.now }
    ensures { Counted text.now at result.value result.next }
{
    let mut value: u64 = 0;
    for i in at..text.len() {
        let c = text[i];
        if c < MINUS {
            return Found { value, next: i + 1 };
        }
        value = grown(value, digit(c));
    }
    Found {
        value,
        next: text.len(),
    }
}

// A number as a sum, and the number below zero.
fn above(n: u64) -> i64
    ensures { result ≡ least_sum (pos n) }
{
    0i64.saturating_add_unsigned(n)
}

fn below(n: u64) -> i64
    ensures { result ≡ least_sum (negative n) }
{
    0i64.saturating_sub_unsigned(n)
}

// Whether a minus stands at a place.
fn has_minus(text: &[u8], at: usize) -> bool
    ensures { result ≡ eqb (get_or text.now at 0) 45 }
{
    text.get(at) == Some(&MINUS)
}

fn sum_at(text: &[u8], at: usize) -> Found<i64>
    requires { at ≤ length text.now }
    ensures { Summed text.now at result.value result.next }
{
    if has_minus(text, at) {
        let n = count_at(text, at + 1);
        return Found {
            value: below(n.value),
            next: n.next,
        };
    }
    let n = count_at(text, at);
    Found {
        value: above(n.value),
        next: n.next,
    }
}

fn line_at(text: &[u8], at: usize) -> Found<Row>
    requires { at ≤ length text.now }
    ensures { Lined text.now at result.value result.next }
{
    let handle = count_at(text, at);
    let packets = count_at(text, handle.next);
    let reports = count_at(text, packets.next);
    let ticks = count_at(text, reports.next);
    let sum = sum_at(text, ticks.next);
    Found {
        value: Row {
            packets: packets.value,
            reports: reports.value,
            ticks: ticks.value,
            sum: sum.value,
        },
        next: sum.next,
    }
}

// The rows that stand behind the line of names.
pub(super) fn held_rows(text: &[u8]) -> [Row; Row::TABLE]
    ensures { result ≡ held text.now }
{
    let mut rows = totals::no_rows();
    let names = line_at(text, 0);
    let mut at = names.next;
    for row in &mut rows {
        let line = line_at(text, at);
        *row = line.value;
        at = line.next;
    }
    rows
}
