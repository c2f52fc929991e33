// The starts that are kept: one more, none, those that pass a test.
ghost use Rattle.std.specs.Prelude.{◌≡◌, ◌<◌, Bool};
ghost use Rattle.laws.specs.Loops.{keep};
ghost use Rattle.rule.specs.Base.{All};
ghost use Rattle.model.specs.Layout.{most_pairs};
ghost use Rattle.twin.specs.Seen.{Held, Rest, bare, but_at, list_of, of_other, pushed};
ghost use Rattle.twin.specs.declared.watch.Begun.{Begun};

use super::watch::{Begun, Seen};

// One start more, behind the others.
pub(super) fn push(seen: Seen, b: Begun) -> Seen
    requires { seen.count < most_pairs }
    ensures { result ≡ pushed seen b }
{
    let mut next = seen;
    let at = next.count;
    next.starts[at] = b;
    next.count = at + 1;
    next
}

// No start, with the monitors and the filter of others.
pub(super) fn emptied(seen: Seen) -> Seen
    ensures { result ≡ bare seen }
{
    let mut next = seen;
    next.count = 0;
    next
}

// The starts that pass a test.
pub(super) fn only<F: Fn(Begun) -> bool>(seen: Seen, stays: F) -> Seen
    requires held { Held seen }
    requires pre { All (λ b. F.pre stays b) (list_of seen) }
    ensures { (f : Begun → Bool) → ((b : Begun) (r : Bool) → F.post stays b r → r ≡ f b)
        → Rest seen (keep f (list_of seen)) result }
{
    let mut next = emptied(seen);
    for b in seen.list() {
        if stays(*b) {
            next = push(next, *b);
        }
    }
    next
}

// The starts but those of a handle.
pub(super) fn without_handle(seen: Seen, h: u8) -> Seen
    requires { Held seen }
    ensures { Rest seen (keep (of_other h) (list_of seen)) result }
{
    only(seen, |b| b.handle != h)
}

// The starts but one.
pub(super) fn without_start(seen: Seen, gone: usize) -> Seen
    requires { Held seen × (gone < seen.count) }
    ensures { Rest seen (but_at gone (list_of seen)) result }
{
    let mut next = seen;
    next.starts.copy_within(gone + 1..seen.count, gone);
    next.count -= 1;
    next
}
