// What is printed of a store.

use crate::images::{FIRST_STORE, image_of};
use cow_image::{Failure, Fault, Listed, Reason, Told, faults, read_slots, read_store, sectors_of};
use cow_reports::{
    Numbers, push_behind_json, push_faults, push_faults_json, push_json, push_listed_json,
    push_numbers, push_runs_json, push_runs_lines, push_sectors, push_show, push_slots, push_told,
    push_usage,
};
use image::{FailingImage, Image, MemImage};
use sector::Refusal;
use std::alloc::{AllocError, Global};
use std::process::Abort;
use std::test::Fail;

// The lines of a map that is whole.
fn lines_of(alloc: Global, told: &Told) -> Result<Vec<u8>, AllocError> {
    let mut text = Vec::new(alloc);
    push_told(&mut text, 256, told)?;
    if let Told::Written(map) = told {
        push_usage(&mut text, map)?;
        push_runs_lines(&mut text, map.pairs.as_slice())?;
    }
    Ok(text)
}

#[test]
fn a_kernel_s_store_has_its_status_line(rt: HostRuntime) -> Result<(), Fail> {
    let mut cow = image_of(rt.alloc(), FIRST_STORE)?;
    let mut text = Vec::new(rt.alloc());
    push_sectors(&mut text, sectors_of(&mut cow)?)?;
    push_numbers(
        &mut text,
        Numbers {
            magic: 1,
            valid: 2,
            version: 3,
            chunk: 4,
        },
    )?;
    assert!(rt;
        text.as_slice() == b"sectors 200\nmagic 1\nvalid 2\nversion 3\nchunk 4\n".as_slice()
    );
    let told = read_store(rt.alloc(), &mut cow, 200)?;
    assert!(rt;
        lines_of(rt.alloc(), &told)?.as_slice()
            == b"pairs 1\narea 0\nslot 1\nstatus 24/200 16\n3 2 1\n".as_slice()
    );
    let (slots, listed) = read_slots(rt.alloc(), &mut cow, 8)?;
    assert!(rt; listed == Listed::Ends(0));
    let mut text = Vec::new(rt.alloc());
    push_slots(&mut text, 256, slots.as_slice())?;
    assert!(rt; text.as_slice() == b"0 0 3 2\n".as_slice());
    Ok(())
}

// The reason for which a store is refused once this byte of it has this value.
fn refused_with(
    rt: &(impl Abort + AllocGlobal),
    at: usize,
    byte: u8,
    origin: u64,
    wanted: Reason,
    text: &[u8],
) -> Result<(), Fail> {
    let mut cow = image_of(rt.alloc(), FIRST_STORE)?;
    assert!(rt; at < cow.bytes.len());
    cow.bytes[at] = byte;
    let told = read_store(rt.alloc(), &mut cow, origin)?;
    assert!(rt; matches!(&told, Told::Refused(reason) if *reason == wanted));
    assert!(rt; lines_of(rt.alloc(), &told)?.as_slice() == text);
    Ok(())
}

#[test]
fn a_store_with_a_wrong_header_has_its_reason(rt: HostRuntime) -> Result<(), Fail> {
    refused_with(
        &rt,
        0,
        0x54,
        200,
        Reason::Header(Refusal::BadHeader),
        b"refused BadHeader\nreason the store begins neither with zero nor with SnAp\n",
    )?;
    refused_with(
        &rt,
        4,
        0,
        200,
        Reason::Header(Refusal::Invalid),
        b"refused Invalid\nreason the store is marked as invalid\n",
    )?;
    refused_with(
        &rt,
        8,
        2,
        200,
        Reason::Header(Refusal::BadVersion),
        b"refused BadVersion\nreason the version is not 1\n",
    )?;
    refused_with(
        &rt,
        12,
        9,
        200,
        Reason::Header(Refusal::BadChunk),
        b"refused BadChunk\nreason the chunk size is no power of two from 1 to 1024\n",
    )?;
    refused_with(
        &rt,
        12,
        128,
        200,
        Reason::TooSmall(128),
        b"refused StoreTooSmall\nreason less than two chunks of 128 sectors\n",
    )
}

#[test]
fn a_store_with_a_wrong_pair_has_its_reason(rt: HostRuntime) -> Result<(), Fail> {
    let pair = sector::Pair { old: 3, new: 2 };
    refused_with(
        &rt,
        12,
        8,
        24,
        Reason::Pairs(Fault::PastOrigin { slot: 0, pair }),
        b"refused Damaged\nreason area 0 slot 0: old chunk 3 begins past the origin's end\n",
    )?;
    let pair = sector::Pair { old: 3, new: 25 };
    refused_with(
        &rt,
        4104,
        25,
        200,
        Reason::Pairs(Fault::OutsideStore { slot: 0, pair }),
        b"refused Damaged\nreason area 0 slot 0: new chunk 25 does not lie inside the store\n",
    )?;
    let pair = sector::Pair { old: 3, new: 1 };
    refused_with(
        &rt,
        4104,
        1,
        200,
        Reason::Pairs(Fault::AtArea { slot: 0, pair }),
        b"refused Damaged\nreason area 0 slot 0: new chunk 1 is an area's place\n",
    )
}

#[test]
fn a_read_that_fails_in_turn_tells_nothing(rt: HostRuntime) -> Result<(), Fail> {
    for call in 1..4 {
        let below = image_of(rt.alloc(), FIRST_STORE)?;
        let mut cow = FailingImage { below, left: call };
        let told = read_store(rt.alloc(), &mut cow, 200);
        assert!(rt; matches!(told, Err(Failure::Unreadable(_))), "call {call}");
    }
    let below = image_of(rt.alloc(), FIRST_STORE)?;
    let mut cow = FailingImage { below, left: 4 };
    assert!(rt; matches!(read_store(rt.alloc(), &mut cow, 200)?, Told::Written(_)));
    Ok(())
}

#[test]
fn an_image_is_whole_sectors(rt: HostRuntime) -> Result<(), Fail> {
    let mut none = MemImage {
        bytes: Vec::new(rt.alloc()),
    };
    assert!(rt;
        matches!(
            read_store(rt.alloc(), &mut none, 8)?,
            Told::Refused(Reason::Empty)
        )
    );
    let mut part = image_of(rt.alloc(), &[(513, 0)])?;
    assert!(rt; part.len()? == 513);
    assert!(rt;
        matches!(
            read_store(rt.alloc(), &mut part, 8),
            Err(Failure::PartOfSector(513))
        )
    );
    let mut fresh = image_of(rt.alloc(), &[(1024, 0)])?;
    assert!(rt; matches!(read_store(rt.alloc(), &mut fresh, 8)?, Told::Fresh));
    Ok(())
}

// A store of 128 sectors with chunks of 8: its second pair has the first one's chunks, its third begins past the origin
// and lies past the store.
const FAULTY: &[(usize, u8)] = &[
    (1, 0x53),
    (1, 0x6e),
    (1, 0x41),
    (1, 0x70),
    (1, 1),
    (3, 0),
    (1, 1),
    (3, 0),
    (1, 8),
    (4083, 0),
    (1, 3),
    (7, 0),
    (1, 2),
    (7, 0),
    (1, 3),
    (7, 0),
    (1, 2),
    (7, 0),
    (1, 40),
    (7, 0),
    (1, 90),
    (61399, 0),
];

#[test]
fn all_faults_are_told_the_first_as_the_reason(rt: HostRuntime) -> Result<(), Fail> {
    let mut cow = image_of(rt.alloc(), FAULTY)?;
    let told = read_store(rt.alloc(), &mut cow, 128)?;
    let pair = sector::Pair { old: 3, new: 2 };
    let first = Fault::OldTwice { slot: 1, pair };
    assert!(rt; matches!(&told, Told::Refused(Reason::Pairs(fault)) if *fault == first));
    let (slots, listed) = read_slots(rt.alloc(), &mut cow, 8)?;
    assert!(rt; listed == Listed::Ends(0));
    let found = faults(rt.alloc(), 8, 128, 128, slots.as_slice(), usize::MAX)?;
    let mut text = Vec::new(rt.alloc());
    push_faults_json(&mut text, b"fault", 256, found.as_slice())?;
    assert!(rt;
        text.as_slice()
            == b"{\"fault\":\"old_twice\",\"area\":0,\"slot\":1,\"old\":3,\"new\":2}\n{\"fault\":\"new_twice\",\"area\":0,\"slot\":1,\"old\":3,\"new\":2}\n{\"fault\":\"past_origin\",\"area\":0,\"slot\":2,\"old\":40,\"new\":90}\n{\"fault\":\"outside_store\",\"area\":0,\"slot\":2,\"old\":40,\"new\":90}\n".as_slice()
    );
    let mut text = Vec::new(rt.alloc());
    push_runs_json(&mut text, slots.as_slice())?;
    push_listed_json(&mut text, listed)?;
    push_behind_json(&mut text, 256, 5, 260)?;
    assert!(rt;
        text.as_slice()
            == b"{\"old\":3,\"new\":2,\"count\":1}\n{\"old\":3,\"new\":2,\"count\":1}\n{\"old\":40,\"new\":90,\"count\":1}\n{\"ends\":0}\n{\"behind\":5,\"area\":1,\"slot\":4}\n".as_slice()
    );
    let mut text = Vec::new(rt.alloc());
    push_faults(&mut text, 256, found.as_slice())?;
    assert!(rt;
        text.as_slice()
            == b"fault area 0 slot 1: old chunk 3 stands in an earlier slot\nfault area 0 slot 1: new chunk 2 stands in an earlier slot\nfault area 0 slot 2: old chunk 40 begins past the origin's end\nfault area 0 slot 2: new chunk 90 does not lie inside the store\n".as_slice()
    );
    Ok(())
}

#[test]
fn a_store_is_shown_in_lines_and_as_an_object(rt: HostRuntime) -> Result<(), Fail> {
    let mut cow = image_of(rt.alloc(), FIRST_STORE)?;
    let told = read_store(rt.alloc(), &mut cow, 200)?;
    let numbers = Some(Numbers {
        magic: 1_883_336_275,
        valid: 1,
        version: 1,
        chunk: 8,
    });
    let mut text = Vec::new(rt.alloc());
    push_show(&mut text, 200, numbers, &told)?;
    assert!(rt;
        text.as_slice()
            == b"sectors 200\nmagic 1883336275\nvalid 1\nversion 1\nchunk 8\npairs 1\narea 0\nslot 1\nstatus 24/200 16\n".as_slice()
    );
    let mut text = Vec::new(rt.alloc());
    push_json(&mut text, 200, numbers, &told)?;
    assert!(rt;
        text.as_slice()
            == b"{\"sectors\":200,\"magic\":1883336275,\"valid\":1,\"version\":1,\"chunk\":8,\"pairs\":1,\"area\":0,\"slot\":1,\"allocated\":24,\"total\":200,\"metadata\":16}\n".as_slice()
    );
    let mut text = Vec::new(rt.alloc());
    push_json(&mut text, 0, None, &Told::Refused(Reason::Empty))?;
    assert!(rt;
        text.as_slice()
            == b"{\"sectors\":0,\"refused\":\"StoreTooSmall\",\"reason\":\"the store has no sector\"}\n".as_slice()
    );
    Ok(())
}

#[test]
fn a_fresh_store_has_two_sectors(rt: HostRuntime) -> Result<(), Fail> {
    let mut small = image_of(rt.alloc(), &[(512, 0)])?;
    assert!(rt;
        matches!(
            read_store(rt.alloc(), &mut small, 8)?,
            Told::Refused(Reason::NoRoom)
        )
    );
    Ok(())
}
