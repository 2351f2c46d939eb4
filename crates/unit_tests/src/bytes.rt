// What tests of bytes share.

// Whether bytes are all the same one.
pub(crate) fn are_all(bytes: &[u8], byte: u8) -> bool {
    bytes.iter().all(|other| *other == byte)
}
