// What the library's calls return: the numbers of answers and refusals, and what they leave where the caller said
// (document 01, Refusal numbers).
ghost use Rattle.std.specs.Prelude.{◌≡◌};
ghost use Rattle.sessions.specs.Session.{image};
ghost use Rattle.index.specs.Asked.{watch_count, lowest_in};
ghost use Rattle.bournejade.specs.Gives.{number_in, count_in};

use engine::Ran;
use index::Watchers;
use refusals::Refusal;

// What a call answered, as a number.
pub(super) fn number<T: Copy>(r: Result<T, Refusal>) -> u8
    ensures { result ≡ number_in r }
{
    match r {
        Ok(_) => 0,
        Err(x) => u8::from(x),
    }
}

// What a call answered: the number that is returned, and the octets written.
pub(super) fn told(r: Result<usize, Refusal>, wrote: &mut usize) -> u8
    ensures { (result ≡ number_in r) × (wrote.new ≡ count_in r) }
{
    *wrote = r.unwrap_or(0);
    number(r)
}

// What a replay did: the number that is returned, how far it read, how much it wrote.
pub(super) fn read_told(ran: Ran, taken: &mut usize, wrote: &mut usize) -> u8
    ensures { (result ≡ number_in ran.stop) × (taken.new ≡ ran.taken)
        × (wrote.new ≡ ran.wrote) }
{
    *taken = ran.taken;
    *wrote = ran.wrote;
    number(ran.stop)
}

// What asking answered: how many monitors, and the lowest handle.
pub(super) fn watch_told(w: Option<Watchers>, lowest: &mut u32) -> u32
    ensures { (result ≡ watch_count w) × (lowest.new ≡ lowest_in w) }
{
    match w {
        Some(x) => {
            *lowest = x.lowest;
            x.count
        }
        None => {
            *lowest = 0;
            0
        }
    }
}
