// What is said of one command.

use crate::help::HELP;

const SHOW: &[u8] = b"usage: lochknife show COW [--json | --human] [-q | --progress]

The header's numbers, how many pairs, where they end, the numbers of the status line; or why the store is refused.
  --json      as one JSON object
  --human     in KiB, MiB, GiB and percent: the store, a chunk, what is in use
";

const MAP: &[u8] = b"usage: lochknife map COW [--raw] [--json]
       lochknife map COW --over ORIGIN [--json | --picture | --svg FILE]

The pairs in runs: OLD NEW COUNT.
  --raw          each slot: AREA SLOT OLD NEW, whether the store is good or not
  --over ORIGIN  where each byte of the snapshot stands, in ranges from the front to the end: START LENGTH, and origin or cow
                 OFFSET; with --json one array of objects
  --picture      which parts of ORIGIN have copies: rows of 64 cells, darker the more of a cell's chunks have them
  --svg FILE     the same as a drawing in a new file; as - it is standard output
  -q, --progress never, or always, how far it is
";

const CHECK: &[u8] = b"usage: lochknife check ORIGIN COW [--json] [-q | --progress]

What show prints, judged for this origin, and every fault of the pairs. Exit status 0 where the store is good, 1 where it is refused.
  -q, --quiet  prints nothing: the exit status tells
";

const DIFF: &[u8] = b"usage: lochknife diff ORIGIN COW [--json] [-q | --progress]

The bytes in which the snapshot and its origin differ, neighbours joined: differs START LENGTH.
";

const COMPARE: &[u8] = b"usage: lochknife compare A B [--json] [-q | --progress]

Whether two images are the same, byte for byte. Exit status 0 where they are, 1 where they differ.
It prints same and their length; or first, the first byte in which they differ, differing, in how many of the sectors that both
have, and shorter A or shorter B with its length.
  -q, --quiet  prints nothing: the exit status tells
";

const TABLE: &[u8] = b"usage: lochknife table ORIGIN COW [-q | --progress]

The lines of tables that a kernel is given for both: snapshot-origin, snapshot and snapshot-merge. A kernel takes devices, so files
need loop devices first.
";

const EXPORT: &[u8] =
    b"usage: lochknife export ORIGIN COW OUT [--salvage [--chunk N] [--behind]] [--json] [-q | --progress]

The array that the snapshot shows, into a new file OUT; as - it is standard output.
  --salvage   of a store that is refused, or can't be read everywhere: what is known of the array, and a list of what is not
  --chunk N   the sectors of a chunk, where the header is gone
  --behind    also by the pairs behind the first empty slot
  -q, --progress never, or always, how far it is
";

const ROLLBACK: &[u8] = b"usage: lochknife rollback ORIGIN COW OUT [--json] [-q | --progress]

Writes what export writes: what ORIGIN holds after the whole merge, into a new file. ORIGIN itself is rolled back by merge.
";

const MERGE: &[u8] = b"usage: lochknife merge ORIGIN COW [--dry-run] [--json] [-q | --progress]

Takes the copies back into ORIGIN itself, and its pairs away from COW; stopped at any moment, run it again.
  --dry-run    what a merge would do; nothing is written
  -q, --quiet  prints nothing: the exit status tells
";

const REPAIR: &[u8] =
    b"usage: lochknife repair COW NEW [--chunk N] [--behind] [--json] [-q | --progress]

A new store NEW of the pairs that a salvage of COW keeps, which a kernel loads; as - it is standard output.
  --chunk N  the sectors of a chunk, where the header is gone
  --behind   also by the pairs behind the first empty slot
  -q, --progress never, or always, how far it is
";

const STORE: &[u8] = b"usage: lochknife store ORIGIN SNAPSHOT NEW [--chunk N] [-q | --progress]

A new store NEW whose snapshot of ORIGIN is the array SNAPSHOT, which is as long. With the array of before a merge it undoes that
merge: merge ORIGIN NEW.
  --chunk N  the sectors of a chunk, else 8
  -q, --progress never, or always, how far it is
";

const NBD: &[u8] = b"usage: lochknife nbd ORIGIN COW [--live]

Serves the snapshot and its origin, for reading, to a client on standard input and output.
  --live  the snapshot alone, while `lochknife serve` writes both files
";

const WORDS: &[u8] = b"usage: lochknife words NAME IMAGE

The lines of commands that make a disk NAME of dmrig with the bytes of any image.
";

const IMAGE: &[u8] = b"usage: lochknife image OUT

The bytes that dmrig's answers to save tell, from standard input, into a new file OUT.
";

/// What is said of a command; of any other word, what is said of all.
pub fn topic(command: &str) -> &'static [u8] {
    match command {
        "show" => SHOW,
        "map" => MAP,
        "check" => CHECK,
        "diff" => DIFF,
        "compare" => COMPARE,
        "table" => TABLE,
        "export" => EXPORT,
        "rollback" => ROLLBACK,
        "merge" => MERGE,
        "repair" => REPAIR,
        "store" => STORE,
        "nbd" => NBD,
        "words" => WORDS,
        "image" => IMAGE,
        _ => HELP,
    }
}
