//! Octets of hexadecimal digits.

/// The octets of hexadecimal digits; zeros where there are not N, with which no case holds.
pub(crate) fn octets<const N: usize>(text: &str) -> [u8; N] {
    let mut octets = [0; N];
    match hex::decode_to_slice(text, &mut octets) {
        Ok(()) => octets,
        Err(_) => [0; N],
    }
}
