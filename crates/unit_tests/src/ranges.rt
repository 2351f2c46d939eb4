// Ranges, refusals and bytes of sectors by hand.
use crate::bytes::are_all;
use sector::{Buf, Range, Refusal};
use std::test::Fail;

#[test]
fn ends_at_the_size_at_most(rt: HostRuntime) {
    for (first, count, size, inside) in [
        (0, 1, 1, true),
        (0, 2, 1, false),
        (1, 0, 1, true),
        (2, 0, 1, false),
        (u64::MAX, 1, u64::MAX, false),
    ] {
        let range = Range::new(first, count, size);
        assert!(rt; range.is_ok() == inside);
    }
}

#[test]
fn moves_on_by_so_many_sectors(rt: HostRuntime) -> Result<(), Fail> {
    let moved = Range::new(3, 2, 8)?.shifted(5);
    assert!(rt; (moved.first, moved.count) == (8, 2));
    Ok(())
}

#[test]
fn prints_the_numbers_and_names_of_the_list(rt: HostRuntime) {
    let table = [
        (Refusal::NoSuchDevice, 1, "NoSuchDevice"),
        (Refusal::OutOfRange, 2, "OutOfRange"),
        (Refusal::NoMemory, 5, "NoMemory"),
        (Refusal::Io, 8, "Io"),
        (Refusal::BadTable, 10, "BadTable"),
        (Refusal::Damaged, 14, "Damaged"),
        (Refusal::Stale, 16, "Stale"),
        (Refusal::NotFinished, 22, "NotFinished"),
        (Refusal::Overflow, 23, "Overflow"),
    ];
    for (refusal, number, name) in table {
        assert!(rt; refusal.number() == number && refusal.name() == name);
    }
}

#[test]
fn holds_the_bytes_it_was_given(rt: HostRuntime) -> Result<(), Fail> {
    let ones = Buf::from_slice(rt.alloc(), &[1; 512])?;
    let mut buf = Buf::zeroed(rt.alloc(), 512)?;
    assert!(rt; are_all(buf.as_slice(), 0) && !buf.is_same(&ones));
    assert!(rt; buf.len() == 512 && ones.len() == 512);
    buf.copy_from(&ones);
    assert!(rt; are_all(buf.as_slice(), 1) && !buf.is_empty());
    assert!(rt; buf.copy(rt.alloc())?.is_same(&ones));
    assert!(rt; Buf::from_vec(Vec::new(rt.alloc())).is_empty());
    Ok(())
}
