// Texts put together: words and numbers, addresses, types, times, levels. Each is put behind a text, as far as there
// is room.
#![tactic(auto)]

ghost use Rattle.std.specs.Prelude.{◌+◌, ◌*◌, ◌/◌, ◌%◌, ◌≤◌, ◌<◌, ◌≡◌, ◌++◌, [], length, take};
ghost use Rattle.decimals.specs.Decimals.{decimal};
ghost use Rattle.lines.specs.Hex.{digit as hex_digit};
ghost use Rattle.texts.specs.Text.{room, told};
ghost use Rattle.texts.specs.Words.{pair_of, colon_pair, address_text, kind_text, two_of, time_text, level_text};

// More characters than any message has.
pub const ROOM: usize = 256;

// A text: its characters stand at the start.
#[derive(Clone, Copy)]
pub struct Text {
    pub octets: [u8; ROOM],
    pub count: usize,
}

// Ticks of a second, a minute, an hour.
const SECOND: u64 = 10;

const MINUTE: u64 = 600;

const HOUR: u64 = 36000;

// The level that stands for 0 dBm.
const ZERO: u8 = 128;

// A hexadecimal digit.
fn digit(d: u8) -> u8
    requires { d < 16 }
    ensures { result ≡ hex_digit d }
{
    if d <= 9 {
        return 48 + d;
    }
    55 + d
}

// The last octet of a number.
fn octet(v: u64) -> u8
    ensures { result ≡ v % 256 }
{
    (v % 256) as u8
}

impl Text {
    // No text yet.
    pub fn blank() -> Text
        ensures { told result ≡ [] }
    {
        Text {
            octets: [0u8; ROOM],
            count: 0,
        }
    }

    // Its characters.
    pub fn as_slice(&self) -> &[u8]
        ensures { result.now ≡ told self.now }
    {
        &self.octets[..self.count.min(ROOM)]
    }

    // The text and words behind it, as far as there is room.
    pub fn with(self, words: &[u8]) -> Text
        ensures { told result ≡ take room (told self ++ words.now) }
    {
        let mut octets = self.octets;
        let at = self.count.min(ROOM);
        let n = words.len().min(ROOM - at);
        parts::copy(&mut octets, at, &words[..n]);
        Text {
            octets,
            count: at + n,
        }
    }

    // The text, words and a number behind it.
    pub fn said(self, words: &[u8], n: u64) -> Text
        ensures { told result ≡ take room (told self ++ (words.now ++ decimal n)) }
    {
        let mut digits = [0u8; decimals::MOST];
        let k = decimals::write(&mut digits, n, decimals::MOST - 1);
        let before = self.with(words);
        before.with(&digits[..k])
    }

    // An octet as two hexadecimal digits.
    pub fn pair(self, x: u8) -> Text
        ensures { told result ≡ take room (told self ++ pair_of x) }
    {
        let two = [digit(x / 16), digit(x % 16)];
        self.with(&two)
    }

    // A number's last octet behind a colon.
    fn colon_pair(self, v: u64) -> Text
        ensures { told result ≡ take room (told self ++ colon_pair v) }
    {
        self.with(b":").pair(octet(v))
    }

    // The address of a device as people write it, the most significant octet first. A device is a number: its type and
    // 256 times its address.
    pub fn address(self, device: u64) -> Text
        ensures { told result ≡ take room (told self ++ address_text device) }
    {
        self.pair(octet(device / 281474976710656))
            .colon_pair(device / 1099511627776)
            .colon_pair(device / 4294967296)
            .colon_pair(device / 16777216)
            .colon_pair(device / 65536)
            .colon_pair(device / 256)
    }

    // Its type in a word.
    pub fn kind(self, device: u64) -> Text
        ensures { told result ≡ take room (told self ++ kind_text device) }
    {
        if device % 256 == 0 {
            return self.with(b"public");
        }
        self.with(b"random")
    }

    // A number below 100 as two decimal digits.
    fn two(self, n: u64) -> Text
        ensures { told result ≡ take room (told self ++ two_of n) }
    {
        let digits = [octet(48 + n / 10 % 10), octet(48 + n % 10)];
        self.with(&digits)
    }

    // A time of so many ticks: hours, minutes, seconds and tenths.
    pub fn time(self, ticks: u64) -> Text
        ensures { told result ≡ take room (told self ++ time_text ticks) }
    {
        self.said(b"", ticks / HOUR)
            .with(b":")
            .two(ticks / MINUTE % 60)
            .with(b":")
            .two(ticks / SECOND % 60)
            .said(b".", ticks % SECOND)
    }

    // A level in dBm, kept as a number that is 128 more.
    pub fn level(self, x: u8) -> Text
        ensures { told result ≡ take room (told self ++ level_text x) }
    {
        if x < ZERO {
            return self.said(b"-", u64::from(ZERO - x));
        }
        self.said(b"", u64::from(x - ZERO))
    }
}
