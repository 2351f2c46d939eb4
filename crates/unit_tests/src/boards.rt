// Boards that one thread publishes and others read.
ghost use Rattle.std.specs.Prelude.{◌≡◌, ◌<◌, ◌^◌, true};

use std::test::Fail;
use std::thread;
use thread_channels::{Board, BoardPass, PlaceState, PlaceUsage};

// Publishes usages of more and more sectors.
fn publish_all(board: &Board, mut pass: BoardPass, count: u64) -> BoardPass
    requires { (pass.board ≡ board.now) × (pass.publishes ≡ true) × (count < 2 ^ 28) }
    ensures { (result.board ≡ board.now) × (result.publishes ≡ true) }
{
    for sectors in 0..count {
        board.publish(
            &mut pass,
            PlaceUsage {
                state: PlaceState::Good,
                allocated: sectors,
                metadata: sectors,
            },
        );
    }
    pass
}

// Reads so many times, and says whether each usage was whole and none came before the one that was read last.
fn read_all(board: &Board, mut pass: BoardPass, count: u64) -> (BoardPass, bool)
    requires { pass.board ≡ board.now }
    ensures { result.0.board ≡ board.now }
{
    let mut last = 0;
    let mut grows = true;
    for _ in 0..count {
        let usage = board.read(&mut pass);
        grows = grows && usage.allocated == usage.metadata && last <= usage.allocated;
        last = usage.allocated;
    }
    (pass, grows)
}

#[test]
fn packs_a_usage_and_takes_it_apart(rt: HostRuntime) -> Result<(), Fail> {
    let most = (1 << 28) - 1;
    let words = [
        (PlaceState::Good, 0, 0, 0),
        (PlaceState::Good, 48, 16, 0x3_0000_0010),
        (PlaceState::Invalid, 0, 0, 0x100_0000_0000_0000),
        (PlaceState::MergeFailed, 1, 0, 0x200_0000_1000_0000),
        (PlaceState::Overflow, 0, 1, 0x300_0000_0000_0001),
        (PlaceState::Empty, most, most, 0x4FF_FFFF_FFFF_FFFF),
    ];
    for (state, allocated, metadata, word) in words {
        let usage = PlaceUsage {
            state,
            allocated,
            metadata,
        };
        assert!(rt; usage.to_word() == word && PlaceUsage::from_word(word) == usage);
    }
    Ok(())
}

#[test]
fn shows_what_was_published_last(rt: HostRuntime) -> Result<(), Fail> {
    let (board, mut publisher) = Board::new(rt.alloc())?;
    let mut reader = board.another(&mut publisher);
    assert!(rt; board.read(&mut reader).state == PlaceState::Empty);
    let spoiled = PlaceUsage {
        state: PlaceState::Invalid,
        allocated: 64,
        metadata: 2,
    };
    board.publish(&mut publisher, spoiled);
    assert!(rt; board.read(&mut reader) == spoiled);
    assert!(rt; board.absorb(&mut publisher, reader) == spoiled);
    Ok(())
}

#[test]
fn never_goes_back_between_threads(rt: HostRuntime) -> Result<(), Fail> {
    let (board, mut publisher) = Board::new(rt.alloc())?;
    let reader = board.another(&mut publisher);
    let board = &board;
    let (mut publisher, (reader, grows)) = thread::join(
        &rt,
        || publish_all(board, publisher, 20_000),
        || read_all(board, reader, 20_000),
    );
    let last = board.absorb(&mut publisher, reader);
    assert!(rt; grows && last.allocated == 19_999);
    Ok(())
}
