// The options before the two file names.
ghost use Rattle.std.specs.Prelude.{◌≡◌, ◌&&◌, not, ◌+◌, ◌≤◌, length, take};
ghost use Rattle.laws.specs.Tests.{pick, sames};
ghost use Rattle.decimals.specs.Decimals.{number_of};
ghost use Rattle.reports.specs.Options.{plain_asked, with_numbers, with_progress, with_after, option_of, behind_of, first_name, is_option, is_dash};

use super::Asked;

fn with_numbers(asked: Asked) -> Asked
    ensures { result ≡ with_numbers asked }
{
    Asked {
        after: asked.after,
        given: asked.given,
        numbered: true,
        progress: asked.progress,
        good: asked.good,
    }
}

fn with_progress(asked: Asked) -> Asked
    ensures { result ≡ with_progress asked }
{
    Asked {
        after: asked.after,
        given: asked.given,
        numbered: asked.numbered,
        progress: true,
        good: asked.good,
    }
}

// The option --after with what its number was read as.
fn with_after(asked: Asked, number: Option<u32>) -> Asked
    ensures { result ≡ with_after asked number }
{
    match number {
        Some(n) => Asked {
            after: n,
            given: true,
            numbered: asked.numbered,
            progress: asked.progress,
            good: asked.good,
        },
        None => Asked {
            after: 0,
            given: true,
            numbered: asked.numbered,
            progress: asked.progress,
            good: false,
        },
    }
}

// An option by its word, with its number in the next one. One that was there before is taken for a file name, and is
// none.
pub(super) fn taken(asked: Asked, word: &[u8], number: &[u8]) -> Asked
    ensures { result ≡ option_of asked word.now number.now }
{
    if parts::same(word, b"--numbered") {
        return with_numbers(asked);
    }
    if parts::same(word, b"--progress") {
        return with_progress(asked);
    }
    if asked.given {
        return asked;
    }
    if parts::same(word, b"--after") {
        return with_after(asked, decimals::read(number));
    }
    asked
}

// The place behind an option that may be there.
fn behind(i: usize, there: bool) -> usize
    requires { i ≤ 100 }
    ensures { (result ≡ behind_of i there) × (result ≤ i + 1) }
{
    if there {
        return i + 1;
    }
    i
}

// The place of the first file name, by the options before it.
pub(super) fn first_name(asked: Asked) -> usize
    ensures { (result ≡ first_name asked) × (result ≤ 5) }
{
    let flags = behind(behind(1, asked.numbered), asked.progress);
    behind(behind(flags, asked.given), asked.given)
}

// Whether a word begins as an option does.
pub(super) fn is_option(word: &[u8]) -> bool
    ensures { result ≡ is_option word.now }
{
    if word.len() < 2 {
        return false;
    }
    parts::same(&word[..2], b"--")
}

// Whether a word stands for standard input.
pub(super) fn is_dash(word: &[u8]) -> bool
    ensures { result ≡ is_dash word.now }
{
    parts::same(word, b"-")
}

// Whether both words do.
pub(super) fn both_dashes(one: &[u8], other: &[u8]) -> bool
    ensures { result ≡ (is_dash one.now && is_dash other.now) }
{
    if is_dash(one) {
        return is_dash(other);
    }
    false
}
