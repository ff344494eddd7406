ghost use Rattle.std.specs.Prelude.{◌≡◌, ◌+◌, ◌*◌, ◌-◌, ◌^◌, ◌<◌, ◌≤◌, IfSome, IfOk};
ghost use Rattle.lsp_frame.specs.Bytes.{is_name_byte, is_value_byte, is_blank};
ghost use Rattle.lsp_frame.specs.Head.{name_matched, line_step, name_step, value_step, digits_step, blank_step, after_step, step_of, head_at, head_of, IsWithin};

/// How far a head has been read. `length` is the value of the line `Content-Length`, where that was read.
#[derive(Clone, Copy, Debug, PartialEq, Eq)]
pub enum Scan {
    /// At the start of a line.
    Line {
        length: Option<u64>,
    },
    /// In a line's name. `matched` is how many bytes that has, if they begin `Content-Length`.
    Name {
        matched: Option<u8>,
        length: Option<u64>,
    },
    /// In the value of a line with another name.
    Value {
        length: Option<u64>,
    },
    /// After the `\r` of a line.
    LineEnd {
        length: Option<u64>,
    },
    /// In the value of `Content-Length`, before its digits.
    Before,
    /// After this many of its digits, which have this value.
    Digits {
        count: u8,
        value: u64,
    },
    /// After a blank that follows its digits.
    After {
        value: u64,
    },
    /// After the `\r` of the empty line.
    HeadEnd {
        length: u64,
    },
    /// After the head.
    Done {
        length: u64,
    },
}

/// What the first bytes of a frame are.
#[derive(Clone, Copy, Debug, PartialEq, Eq)]
pub enum Head {
    /// They begin a head and don't end it.
    Unended,
    /// The byte at this place makes them no head, or the head has no end before this place, the greatest one.
    Broken { at: usize },
    /// A head of this size gives this length.
    Gives { length: u64, size: usize },
}

/// The greatest size of a head, in bytes.
pub const HEAD_LIMIT: usize = 4096;

const CONTENT_LENGTH: &[u8; 14] = b"content-length";

fn is_name(byte: u8) -> bool
    ensures { result ≡ is_name_byte byte }
{
    byte.is_ascii_alphanumeric() || byte == b'-'
}

fn is_value(byte: u8) -> bool
    ensures { result ≡ is_value_byte byte }
{
    (32 <= byte && byte <= 126) || byte == b'\t'
}

fn is_space(byte: u8) -> bool
    ensures { result ≡ is_blank byte }
{
    byte == b' ' || byte == b'\t'
}

// The matched bytes after one more byte of a name.
fn match_name(matched: Option<u8>, byte: u8) -> Option<u8>
    ensures { result ≡ name_matched matched byte }
{
    match matched {
        Some(count) => {
            if count < 14 && CONTENT_LENGTH[count as usize] == byte.to_ascii_lowercase() {
                Some(count + 1)
            } else {
                None
            }
        }
        None => None,
    }
}

fn at_line(length: Option<u64>, byte: u8) -> Option<Scan>
    ensures { result ≡ line_step length byte }
{
    if is_name(byte) {
        return Some(Scan::Name {
            matched: match_name(Some(0), byte),
            length,
        });
    }
    match length {
        Some(length) => {
            if byte == b'\r' {
                Some(Scan::HeadEnd { length })
            } else {
                None
            }
        }
        None => None,
    }
}

fn in_name(matched: Option<u8>, length: Option<u64>, byte: u8) -> Option<Scan>
    ensures { result ≡ name_step matched length byte }
{
    if is_name(byte) {
        return Some(Scan::Name {
            matched: match_name(matched, byte),
            length,
        });
    }
    if byte != b':' {
        return None;
    }
    if matched != Some(14) {
        return Some(Scan::Value { length });
    }
    match length {
        Some(_) => None,
        None => Some(Scan::Before),
    }
}

fn in_value(length: Option<u64>, byte: u8) -> Option<Scan>
    ensures { result ≡ value_step length byte }
{
    if is_value(byte) {
        Some(Scan::Value { length })
    } else if byte == b'\r' {
        Some(Scan::LineEnd { length })
    } else {
        None
    }
}

// The number after one more digit.
fn push_digit(count: u8, value: u64, digit: u8) -> u64
    requires count { count < 19 }
    requires value { value < 10 ^ count }
    requires digit { digit < 10 }
    ensures number { result ≡ value * 10 + digit }
    ensures within { result < 10 ^ (count + 1) }
{
    value * 10 + digit as u64
}

fn in_digits(count: u8, value: u64, byte: u8) -> Option<Scan>
    requires count { count ≤ 19 }
    requires value { value < 10 ^ count }
    ensures step { result ≡ digits_step count value byte }
    ensures within { IfSome result IsWithin }
{
    if !byte.is_ascii_digit() {
        return before_or_after(count, value, byte);
    }
    if count >= 19 {
        return None;
    }
    Some(Scan::Digits {
        count: count + 1,
        value: push_digit(count, value, byte - b'0'),
    })
}

fn before_or_after(count: u8, value: u64, byte: u8) -> Option<Scan>
    ensures step { result ≡ blank_step count value byte }
    ensures within { IfSome result IsWithin }
{
    if count > 0 {
        after_digits(value, byte)
    } else if is_space(byte) {
        Some(Scan::Before)
    } else {
        None
    }
}

fn after_digits(value: u64, byte: u8) -> Option<Scan>
    ensures step { result ≡ after_step value byte }
    ensures within { IfSome result IsWithin }
{
    if is_space(byte) {
        Some(Scan::After { value })
    } else if byte == b'\r' {
        Some(Scan::LineEnd {
            length: Some(value),
        })
    } else {
        None
    }
}

/// The head after one more byte, or `None` where no head goes on so.
pub fn step(scan: Scan, byte: u8) -> Option<Scan>
    requires { IsWithin scan }
    ensures step { result ≡ step_of scan byte }
    ensures within { IfSome result IsWithin }
{
    match scan {
        Scan::Line { length } => at_line(length, byte),
        Scan::Name { matched, length } => in_name(matched, length, byte),
        Scan::Value { length } => in_value(length, byte),
        Scan::LineEnd { length } => {
            if byte == b'\n' {
                Some(Scan::Line { length })
            } else {
                None
            }
        }
        Scan::Before => in_digits(0, 0, byte),
        Scan::Digits { count, value } => in_digits(count, value, byte),
        Scan::After { value } => after_digits(value, byte),
        Scan::HeadEnd { length } => {
            if byte == b'\n' {
                Some(Scan::Done { length })
            } else {
                None
            }
        }
        Scan::Done { .. } => None,
    }
}

// What the bytes are that led here, of which there are this many.
fn settled(scan: Scan, size: usize) -> Head
    ensures { result ≡ head_at size scan }
{
    match scan {
        Scan::Done { length } => Head::Gives { length, size },
        _ => {
            if size >= HEAD_LIMIT {
                Head::Broken { at: size }
            } else {
                Head::Unended
            }
        }
    }
}

/// The head at the front of the bytes.
pub fn read_head(bytes: &[u8]) -> Head
    ensures { result ≡ head_of bytes.now }
{
    let mut scan = Scan::Line { length: None };
    let mut rest = bytes;
    let mut size = 0;
    loop {
        match settled(scan, size) {
            Head::Unended => {}
            head => return head,
        }
        let [byte, after @ ..] = rest else {
            return Head::Unended;
        };
        match step(scan, *byte) {
            Some(next) => scan = next,
            None => return Head::Broken { at: size },
        }
        rest = after;
        size += 1;
    }
}
