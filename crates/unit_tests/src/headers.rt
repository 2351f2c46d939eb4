// Headers of stores, by the bytes of the kernel.
use crate::bytes::are_all;
use cow_header::{Found, decode, encode};
use sector::Refusal;

#[test]
fn writes_the_bytes_of_the_kernel(rt: HostRuntime) {
    for (valid, chunk, numbers) in [
        (true, 1, b"SnAp\x01\0\0\0\x01\0\0\0\x01\0\0\0"),
        (true, 8, b"SnAp\x01\0\0\0\x01\0\0\0\x08\0\0\0"),
        (true, 16, b"SnAp\x01\0\0\0\x01\0\0\0\x10\0\0\0"),
        (true, 1024, b"SnAp\x01\0\0\0\x01\0\0\0\0\x04\0\0"),
        (false, 1, b"SnAp\0\0\0\0\x01\0\0\0\x01\0\0\0"),
    ] {
        let mut text = [0xee; 1024];
        encode(&mut text, valid, chunk);
        assert!(rt; &text[..16] == numbers.as_slice() && are_all(&text[16..], 0));
    }
}

#[test]
fn reads_headers_and_refuses_others_in_order(rt: HostRuntime) {
    for (numbers, found) in [
        (
            b"\0\0\0\0\xff\xff\xff\xff\xff\xff\xff\xff\xff\xff\xff\xff",
            Ok(Found::Fresh),
        ),
        (
            b"SnAp\x01\0\0\0\x01\0\0\0\x01\0\0\0",
            Ok(Found::Header { chunk: 1 }),
        ),
        (
            b"SnAp\x02\0\0\0\x01\0\0\0\0\x04\0\0",
            Ok(Found::Header { chunk: 1024 }),
        ),
        (b"SnAq\0\0\0\0\x02\0\0\0\x03\0\0\0", Err(Refusal::BadHeader)),
        (
            b"SnAp\0\0\0\0\x02\0\0\0\x03\0\0\0",
            Err(Refusal::BadVersion),
        ),
        (b"SnAp\0\0\0\0\x01\0\0\0\x03\0\0\0", Err(Refusal::BadChunk)),
        (b"SnAp\x01\0\0\0\x01\0\0\0\0\0\0\0", Err(Refusal::BadChunk)),
        (
            b"SnAp\x01\0\0\0\x01\0\0\0\0\x08\0\0",
            Err(Refusal::BadChunk),
        ),
        (b"SnAp\0\0\0\0\x01\0\0\0\x01\0\0\0", Err(Refusal::Invalid)),
    ] {
        let mut sector = [0xff; 512];
        sector[..16].copy_from_slice(numbers.as_slice());
        assert!(rt; decode(&sector) == found);
    }
}
