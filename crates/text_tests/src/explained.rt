// What is told behind each line that is refused: the first lines of someone who knows dmsetup.

use explain_refusals::ExplainTo;
use script_runner::{Untraced, run};
use std::test::Fail;

/// Lines, and why each is refused; no word for one that is not.
const LINES: [(&str, &str); 60] = [
    (
        "help",
        "help is no command: dmrig --help lists the commands",
    ),
    ("ls", ""),
    (
        "targets",
        "targets is no command: targets are snapshot-origin, snapshot, flakey, dust, error",
    ),
    ("disk base 128", ""),
    ("disk cow 64", ""),
    (
        "disk vg-snap 64",
        "vg-snap is no name: 1 to 16 of a-z 0-9 _, a letter first",
    ),
    (
        "disk L 64",
        "L is no name: 1 to 16 of a-z 0-9 _, a letter first",
    ),
    ("disk base 8", "the name base is in use"),
    (
        "disk big 16777217",
        "16777217 sectors: a disk has 1 to 16777216",
    ),
    (
        "create vol --table '0 128 snapshot-origin base'",
        "--table stands where 0 should: create NAME 0 SECTORS snapshot-origin|snapshot|flakey|dust|error",
    ),
    (
        "create vol 0 128 snapshot-origin /dev/base",
        "/dev/base is no name: 1 to 16 of a-z 0-9 _, a letter first",
    ),
    (
        "create vol 0 64 snapshot-origin base",
        "the line says 64 sectors, which are not those of base: it has 128",
    ),
    (
        "create vol 0 128 linear base 0",
        "linear is none of snapshot-origin|snapshot|flakey|dust|error",
    ),
    ("create vol 0 128 snapshot-origin base", ""),
    (
        "create snap 0 128 snapshot vol cow P 8",
        "vol is an origin; a snapshot's line names what it stands on: base",
    ),
    (
        "create snap 0 128 snapshot base cow N 8",
        "N is no word for a store: P, or PO where it may overflow",
    ),
    (
        "create snap 0 128 snapshot base cow P 8k",
        "8k is no number: 1 to 10 digits, below 4294967296",
    ),
    (
        "create snap 0 128 snapshot base cow P 12",
        "12 is no chunk: 1, 2, 4, 8 .. 1024 sectors",
    ),
    (
        "create snap 0 128 snapshot base cow P 8 2 discard_zeroes_cow discard_passdown_origin",
        "2 stands where 0 should: create NAME 0 SECTORS snapshot DEV STORE P|PO CHUNK 0",
    ),
    (
        "create snap 0 128 snapshot base cow2 P 8",
        "no device is named cow2",
    ),
    ("create snap 0 128 snapshot base cow P 8", ""),
    (
        "create fl 0 64 flakey base 0 1 1",
        "base is in use: an origin stands on it",
    ),
    (
        "create du 0 64 dust cow 8 512",
        "8 stands where 0 should: create NAME 0 SECTORS dust DEV 0 BLOCK",
    ),
    (
        "info vol",
        "info is no command: ls lists the devices; table NAME and status NAME tell of one",
    ),
    (
        "deps vol",
        "deps is no command: ls lists the devices; table NAME and status NAME tell of one",
    ),
    ("status", "DEV is missing: status DEV"),
    (
        "status base",
        "base is a disk; status takes an origin or a snapshot",
    ),
    (
        "table base",
        "base is a disk; table takes any device but a disk",
    ),
    ("read vol 0", "N is missing: read DEV S N"),
    ("read vol 0 4096", "4096 sectors: a line moves 1 to 2048"),
    (
        "read vol 128 1",
        "the sectors pass the end of vol, which has 128 sectors",
    ),
    (
        "write vol 0 4096*FF",
        "4096*FF is no data: COUNT*HH, a count of 1 to 1048576, and two of 0-9 a-f",
    ),
    (
        "write vol 0 256*ff",
        "the data has 256 bytes, and no whole sectors of 512",
    ),
    (
        "write snap 5 512*zz",
        "512*zz is no data: COUNT*HH, a count of 1 to 1048576, and two of 0-9 a-f",
    ),
    (
        "resume vol",
        "vol has no merge; resume lets one go on that failed, and no device is suspended here",
    ),
    (
        "suspend vol",
        "suspend is no command: no device is suspended here; settle VOL does what is due, so that a volume is quiet",
    ),
    (
        "message vol 0 addbadblock 60",
        "vol is an origin; message takes a dust layer",
    ),
    (
        "load cow 0 512*00",
        "cow is in use: it is the store of a snapshot",
    ),
    ("copy base 0 cow", "N is missing: copy DISK S DISK N"),
    (
        "copy base 0 cow 2049",
        "2049 sectors: a line moves 1 to 2048",
    ),
    ("copy base 0 cow2 1", "no device is named cow2"),
    (
        "copy base 0 vol 1",
        "vol is an origin; copy takes two disks",
    ),
    (
        "copy base 64 cow 1",
        "the sectors pass the end of base, or of cow",
    ),
    (
        "copy base 0 cow 1",
        "cow is in use: it is the store of a snapshot",
    ),
    ("ls vol", "vol is a word too many: ls"),
    (
        "remove vol",
        "vol is in use: it has snapshots, or a merge: remove or finish these first",
    ),
    ("remove cow", "cow is in use: it is the store of a snapshot"),
    (
        "step vol copy-read 1",
        "the event is not due: dmrig --trace tells which are",
    ),
    (
        "step vol copy 1",
        "copy is none of issue|copy-read|copy-write|publish|zero-next|write-area|write-invalid|flush-store|merge-group",
    ),
    ("merge vol", "vol is an origin; merge takes a snapshot"),
    ("merge snap", ""),
    (
        "read snap 0 1",
        "snap is being merged, and takes no requests: its origin shows what it showed",
    ),
    ("finish vol", ""),
    (
        "lvconvert --merge vg/snap",
        "lvconvert is no command: merge SNAP begins a merge, settle VOL does it, finish VOL takes it out",
    ),
    ("quit", "quit is no command: Ctrl-D ends a session"),
    ("create fl 0 64 flakey cow 0 3 3", ""),
    (
        "message fl 0 tick",
        "SECONDS is missing: message DEV 0 tick SECONDS",
    ),
    (
        "message fl 0 ticks 3",
        "ticks is none of addbadblock|removebadblock|queryblock|countbadblocks|clearbadblocks|enable|disable|tick",
    ),
    ("message fl 0 tick 3", ""),
    (
        "message vol 0 tick 3",
        "vol is an origin; message tick takes a flakey layer",
    ),
];

#[test]
fn tells_why_each_line_is_refused(rt: HostRuntime) -> Result<(), Fail> {
    let mut text = Vec::new(rt.alloc());
    let mut wanted = Vec::new(rt.alloc());
    for (number, (line, why)) in LINES.iter().enumerate() {
        text.extend_from_slice(line.as_bytes())?;
        text.push(b'\n')?;
        if !why.is_empty() {
            let told = format!(in rt.alloc(); "{}: {}\n", number.wrapping_add(1), why)?;
            wanted.extend_from_slice(told.as_bytes())?;
        }
    }
    let mut plain = Vec::new(rt.alloc());
    let mut out = Vec::new(rt.alloc());
    let mut told = ExplainTo::new(rt.alloc(), Vec::new(rt.alloc()));
    run(
        &rt,
        rt.alloc(),
        &mut text.as_slice(),
        &mut plain,
        &mut Untraced,
        1,
        false,
    )?;
    let summary = run(
        &rt,
        rt.alloc(),
        &mut text.as_slice(),
        &mut out,
        &mut told,
        1,
        false,
    )?;
    assert_eq!(rt; told.into_writer().as_slice(), wanted.as_slice());
    assert_eq!(rt; out.as_slice(), plain.as_slice());
    assert_eq!(rt; summary.refused, 51);
    Ok(())
}
