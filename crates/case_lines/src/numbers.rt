//! The numbers that words spell.

/// The value of a digit, 0 to 9, or 10 to 15 for a letter of either case.
pub fn digit(byte: u8) -> Option<u8> {
    match byte {
        b'0'..=b'9' => Some(byte - b'0'),
        b'a'..=b'f' => Some(byte - b'a' + 10),
        b'A'..=b'F' => Some(byte - b'A' + 10),
        _ => None,
    }
}

/// The number that digits of the radix spell; none where there is no digit, another byte, or a number of more than 128 bits.
fn spelled_in(radix: u8, digits: &[u8]) -> Option<u128> {
    let mut value: Option<u128> = None;
    for byte in digits {
        let more = digit(*byte)?;
        if radix <= more {
            return None;
        }
        value = Some(
            value
                .unwrap_or(0)
                .checked_mul(u128::from(radix))?
                .checked_add(u128::from(more))?,
        );
    }
    value
}

/// The number that the word spells: in decimal digits, or in hexadecimal ones behind `0x`.
pub fn number(word: &str) -> Option<u128> {
    match word.as_bytes() {
        [b'0', b'x', digits @ ..] => spelled_in(16, digits),
        digits => spelled_in(10, digits),
    }
}

/// The number that the word spells, if it is below 2^64.
pub fn number_64(word: &str) -> Option<u64> {
    u64::try_from(number(word)?).ok()
}

/// The number that the word spells, if it is below 2^32.
pub fn number_32(word: &str) -> Option<u32> {
    u32::try_from(number(word)?).ok()
}
