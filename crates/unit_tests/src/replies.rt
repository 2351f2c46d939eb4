// Requests and replies that are copied.
use plain_machine::{Failure, Op, Reply};
use sector::Buf;
use std::test::Fail;

#[test]
fn copies_are_the_same_and_others_are_not(rt: HostRuntime) -> Result<(), Fail> {
    let ones = Op::Write(Buf::from_slice(rt.alloc(), &[1; 512])?);
    let zeros = Op::Write(Buf::zeroed(rt.alloc(), 512)?);
    assert!(rt;
        ones.is_same(&ones.copy(rt.alloc())?) && Op::Read.is_same(&Op::Read.copy(rt.alloc())?)
    );
    assert!(rt; !ones.is_same(&zeros) && !ones.is_same(&Op::Read));
    assert!(rt;
        Op::Flush.is_same(&Op::Flush.copy(rt.alloc())?)
            && !Op::Flush.is_same(&Op::Read)
            && !zeros.is_same(&Op::Flush)
    );
    Ok(())
}

#[test]
fn a_reply_is_copied_into_a_buffer_that_is_there(rt: HostRuntime) -> Result<(), Fail> {
    let data = Reply::Data(Buf::from_slice(rt.alloc(), &[1; 512])?);
    let room = Buf::zeroed(rt.alloc(), 512)?;
    assert!(rt; room.len() == 512);
    assert!(rt; data.is_same(&copied(&data, room)));
    assert!(rt; !data.is_same(&Reply::Written));
    let empty = Buf::zeroed(rt.alloc(), 0)?;
    assert!(rt; Reply::Flushed.is_same(&copied(&Reply::Flushed, empty)));
    assert!(rt; !Reply::Flushed.is_same(&Reply::Written));
    assert!(rt; !Reply::Refused(Failure::Io).is_same(&Reply::Refused(Failure::Invalid)));
    Ok(())
}

// The same reply, where the buffer is as long.
fn copied(reply: &Reply, room: Buf) -> Reply {
    match reply {
        Reply::Data(bytes) if bytes.len() != room.len() => Reply::Written,
        _ => reply.copy_into(room),
    }
}
