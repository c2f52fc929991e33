// The octets of a text of rows.
pub const COMMA: u8 = b',';

pub const LF: u8 = b'\n';

pub const MINUS: u8 = b'-';

pub const ZERO: u8 = b'0';
