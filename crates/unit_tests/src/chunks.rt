// Sizes of chunks, and ranges by hand.
use chunk::{Geometry, is_chunk_size};
use sector::{Range, Refusal};
use std::test::Fail;

#[test]
fn sizes_of_chunks(rt: HostRuntime) {
    for chunk in [1, 2, 4, 8, 16, 32, 64, 128, 256, 512, 1024] {
        assert!(rt; is_chunk_size(chunk));
    }
    for chunk in [0, 3, 5, 6, 7, 9, 12, 1023, 1025, 2048, 4294967295] {
        assert!(rt; !is_chunk_size(chunk));
        assert!(rt; Geometry::new(chunk, 100).err() == Some(Refusal::BadChunk));
    }
}

#[test]
fn the_last_chunk_is_short(rt: HostRuntime) -> Result<(), Fail> {
    let geometry = Geometry::new(8, 21)?;
    assert!(rt; geometry.chunk == 8 && geometry.sectors == 21);
    let whole = geometry.chunk_range(1);
    let short = geometry.chunk_range(2);
    assert!(rt; (whole.first, whole.count, whole.size) == (8, 8, 21));
    assert!(rt; (short.first, short.count, short.size) == (16, 5, 21));
    assert!(rt; geometry.chunk_of(15) == 1 && geometry.chunk_of(16) == 2);
    Ok(())
}

// Whether a piece has these sectors.
fn is_piece(piece: Option<Range>, first: u64, count: u32) -> bool {
    match piece {
        Some(range) => range.first == first && range.count == count,
        None => false,
    }
}

#[test]
fn a_range_over_three_chunks(rt: HostRuntime) -> Result<(), Fail> {
    let range = Range::new(6, 12, 100)?;
    let mut pieces = Geometry::new(8, 100)?.pieces(range);
    assert!(rt; is_piece(pieces.next(), 6, 2));
    assert!(rt; is_piece(pieces.next(), 8, 8));
    assert!(rt; is_piece(pieces.next(), 16, 2));
    assert!(rt; pieces.next().is_none());
    Ok(())
}
