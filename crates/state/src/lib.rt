// The state: a block of octets whose rows are the image's before hexadecimal (document 01, Sizes of the gateway, The
// image), its limits and offsets, how one is begun, and the two units of time.
#![tactic(auto)]

mod settings;

ghost use Rattle.std.specs.Prelude.{◌≡◌, ◌<◌, length, nat_lt};
ghost use Rattle.model.specs.Types.{ticks_of};
ghost use Rattle.model.specs.Level.{level, in_range};
ghost use Rattle.model.specs.Monitors.{lets_through};
ghost use Rattle.blocks.specs.Added.{filtering_of};
ghost use Rattle.model.specs.Block.{advanced, ready as is_ready};
ghost use Rattle.model.specs.Engine.{begin};
ghost use Rattle.state.specs.Start.{settings_of, blank_in, fresh_in};

use refusals::Refusal;

// Seconds of the low interval.
#[derive(Clone, Copy)]
pub struct Seconds(pub u8);

// Ticks of 100 ms.
#[derive(Clone, Copy)]
pub struct Ticks(pub u16);

impl Seconds {
    // 1 second is 10 ticks.
    pub fn ticks(self) -> Ticks
        ensures { result.0 ≡ ticks_of self.0 }
    {
        Ticks(10 * u16::from(self.0))
    }
}

impl Ticks {
    // Whether these are fewer.
    pub fn below(self, run: Ticks) -> bool
        ensures { result ≡ nat_lt self.0 run.0 }
    {
        self.0 < run.0
    }
}

// The level of an RSSI octet: 0 for −128 dBm, 255 for 127 dBm. Levels are ordered as dBm are (model, Levels).
pub fn level_of(rssi: u8) -> u8
    ensures { result ≡ level rssi }
{
    rssi.wrapping_add(128)
}

// Whether an RSSI octet stands for −127 to 20 dBm.
pub fn in_range(rssi: u8) -> bool
    ensures { result ≡ in_range rssi }
{
    let level = level_of(rssi);
    (State::LEAST_LEVEL <= level) & (level <= State::MOST_LEVEL)
}

// The report filtering that holds for a monitor, from its row's octets: where options are 0 that of version 1, bits 1
// and 2.
pub fn filtering_of(options: u8, filtering: u8) -> u8
    ensures { result ≡ filtering_of options filtering }
{
    if options == 0 {
        return 6;
    }
    filtering
}

// Whether report filtering lets packets of an event type through: bit 1 all, which are legacy ones, bit 3 the
// directed, of event type 1.
pub fn lets_through(filtering: u8, event: u8) -> bool
    ensures { result ≡ lets_through filtering event }
{
    (filtering / 2 % 2 == 1) | ((filtering / 8 % 2 == 1) & (event == 1))
}

// The position one frame further. A block of under 4 octets is left as it is; behind the last number comes 0.
pub fn advance(block: &mut [u8])
    ensures { block.new ≡ advanced block.old }
{
    let position = octets::get32(block, State::POSITION_AT);
    octets::put32(block, State::POSITION_AT, position.wrapping_add(1));
}

// Whether a frame may be taken: the block has its size, the output room for the longest answer, and a frame number is
// left.
pub fn ready(block: &[u8], out: &[u8]) -> bool
    ensures { result ≡ is_ready block.now out.now }
{
    if block.len() != State::SIZE {
        return false;
    }
    if out.len() < State::ANSWER {
        return false;
    }
    octets::get32(block, State::POSITION_AT) < State::LAST
}

// The blank state, in a lent block of the right length; another is left as it is.
pub fn put_blank(block: &mut [u8])
    ensures { block.new ≡ blank_in block.old }
{
    if block.len() != State::SIZE {
        return;
    }
    parts::fill(block, 0, State::SIZE, 0);
    settings::set_settings(block, State::LEAST_OPCODE, &[]);
}

// The fresh state with these settings, in a lent block of the right length; the blank one and refusal 9 where they
// are out of range. A block of another length is left as it is.
pub fn put_fresh(block: &mut [u8], opcode: u16, prefix: &[u8]) -> Result<(), Refusal>
    ensures { (result ≡ settings_of opcode prefix.now)
        × (block.new ≡ fresh_in block.old opcode prefix.now) }
{
    if opcode < State::LEAST_OPCODE {
        put_blank(block);
        return Err(Refusal::BadSettings);
    }
    if State::PREFIX < prefix.len() {
        put_blank(block);
        return Err(Refusal::BadSettings);
    }
    if block.len() == State::SIZE {
        parts::fill(block, 0, State::SIZE, 0);
        settings::set_settings(block, opcode, prefix);
    }
    Ok(())
}

// The state of the engine: position (4), filter, opcode (2), prefix length and prefix, padded to 40 octets; the
// monitors' rows by handle; the pairs' rows in start order; the number of pairs. What is not in use is 0.
#[derive(Clone, Copy)]
pub struct State {
    pub block: [u8; State::SIZE],
}

// What starting gives: the state, and whether the settings were refused.
#[derive(Clone, Copy)]
pub struct Begun {
    pub answer: Result<(), Refusal>,
    pub state: State,
}

impl State {
    // Monitors (handles 0 to 15), watched pairs, octets of a condition, of a packet's data and of the event prefix.
    pub const MONITORS: usize = 16;

    pub const PAIRS: usize = 64;

    pub const CONDITION: usize = 64;

    pub const DATA: usize = 31;

    pub const PREFIX: usize = 32;
    // The same limits where an octet is compared with them.
    pub const HANDLES: u8 = State::MONITORS as u8;

    pub const MOST_PAIRS: u8 = State::PAIRS as u8;

    pub const MOST_DATA: u8 = State::DATA as u8;

    pub const MOST_PREFIX: u8 = State::PREFIX as u8;
    // The least and the greatest level of an RSSI in range: −127 and 20 dBm.
    pub const LEAST_LEVEL: u8 = 1;

    pub const MOST_LEVEL: u8 = 148;
    // The least vendor opcode; the greatest is 0xFFFF.
    pub const LEAST_OPCODE: u16 = 0xFC00;
    // The last frame number.
    pub const LAST: u32 = 0xFFFFFFFF;
    // The longest answer, image and line.
    pub const ANSWER: usize = 2880;

    pub const IMAGE: usize = 10698;

    pub const LINE: usize = lines::LINE_ROOM;
    // The head: position (4), filter, opcode (2), prefix length, prefix.
    pub const POSITION_AT: usize = 0;

    pub const FILTER_AT: usize = State::POSITION_AT + 4;

    pub const OPCODE_AT: usize = State::FILTER_AT + 1;

    pub const PREFIX_LENGTH_AT: usize = State::OPCODE_AT + 2;

    pub const PREFIX_AT: usize = State::PREFIX_LENGTH_AT + 1;

    pub const HEAD: usize = State::PREFIX_AT + State::PREFIX;
    // A monitor's row: handle, high, low, interval, sampling, type, condition length, condition.
    pub const HIGH_AT: usize = 1;

    pub const LOW_AT: usize = State::HIGH_AT + 1;

    pub const INTERVAL_AT: usize = State::LOW_AT + 1;

    pub const SAMPLING_AT: usize = State::INTERVAL_AT + 1;

    pub const TYPE_AT: usize = State::SAMPLING_AT + 1;

    pub const CONDITION_LENGTH_AT: usize = State::TYPE_AT + 1;

    pub const CONDITION_AT: usize = State::CONDITION_LENGTH_AT + 1;

    // Behind the room of the condition, what version 2 adds: options, report filtering, peer address (6), its type,
    // IRK (16). Options 0 say that there is none of it.
    pub const OPTIONS_AT: usize = State::CONDITION_AT + State::CONDITION;

    pub const FILTERING_AT: usize = State::OPTIONS_AT + 1;

    pub const PEER_AT: usize = State::FILTERING_AT + 1;

    pub const PEER_TYPE_AT: usize = State::PEER_AT + 6;

    pub const IRK_AT: usize = State::PEER_TYPE_AT + 1;

    pub const IRK: usize = 16;

    pub const EXTRA: usize = State::IRK_AT + State::IRK - State::OPTIONS_AT;

    pub const MONITOR_ROW: usize = State::OPTIONS_AT + State::EXTRA;
    // A pair's row: its key (handle, and the device: address type and address), ticks since a good packet (2), ticks
    // in the window, packets (4), sum (8), kept RSSI, event type, n, data.
    pub const KIND_AT: usize = 1;

    pub const ADDRESS_AT: usize = State::KIND_AT + 1;

    pub const SILENT_AT: usize = State::ADDRESS_AT + 6;

    pub const TICKS_AT: usize = State::SILENT_AT + 2;

    pub const PACKETS_AT: usize = State::TICKS_AT + 1;

    pub const SUM_AT: usize = State::PACKETS_AT + 4;

    pub const RSSI_AT: usize = State::SUM_AT + 8;

    pub const EVENT_AT: usize = State::RSSI_AT + 1;

    pub const LENGTH_AT: usize = State::EVENT_AT + 1;

    pub const DATA_AT: usize = State::LENGTH_AT + 1;

    pub const PAIR_ROW: usize = State::DATA_AT + State::DATA;
    // A pair's key and its device; of its window what stands before the kept RSSI, and what stands behind it.
    pub const KEY: usize = State::SILENT_AT;

    pub const DEVICE: usize = State::SILENT_AT - State::KIND_AT;

    pub const COUNTS: usize = State::RSSI_AT - State::TICKS_AT;

    pub const LATEST: usize = State::PAIR_ROW - State::EVENT_AT;
    // The block: the head, the monitors' rows by handle, the pairs' rows in start order, the number of pairs.
    pub const MONITORS_AT: usize = State::HEAD;

    pub const PAIRS_AT: usize = State::MONITORS_AT + State::MONITOR_ROW * State::MONITORS;

    pub const COUNT_AT: usize = State::PAIRS_AT + State::PAIR_ROW * State::PAIRS;

    pub const SIZE: usize = State::COUNT_AT + 1;
    // The first monitor's interval and sampling period; what a monitor's row has from the condition on.
    pub const INTERVALS_AT: usize = State::MONITORS_AT + State::INTERVAL_AT;

    pub const PERIODS_AT: usize = State::MONITORS_AT + State::SAMPLING_AT;

    pub const CONDITION_ROOM: usize = State::MONITOR_ROW - State::CONDITION_AT;
    // Rows with the octet that names a line of an image.
    pub const HEAD_LINE: usize = State::HEAD + 1;

    pub const LINE_ROW: usize = State::MONITOR_ROW + 1;

    pub const PAIR_LINE: usize = State::PAIR_ROW + 1;

    // The fresh state with these settings; the blank one and refusal 9 where they are out of range.
    pub fn fresh(opcode: u16, prefix: &[u8]) -> Begun
        ensures { (result.answer ≡ settings_of opcode prefix.now)
            × (result.state.block ≡ begin opcode prefix.now) }
    {
        let mut block = [0u8; State::SIZE];
        let answer = put_fresh(&mut block, opcode, prefix);
        Begun {
            answer,
            state: State { block },
        }
    }
}
