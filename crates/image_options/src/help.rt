// What the program says of itself.

/// Its name and version.
pub const VERSION: &[u8] = b"lochknife 1\n";

/// The words that are taken.
pub const HELP: &[u8] =
    b"lochknife looks at images of dm-snapshot's stores. But for merge it never writes to an image.

usage: lochknife show COW [--json | --human]
       lochknife map COW [--raw] [--json]
       lochknife map COW --over ORIGIN [--json | --picture | --svg FILE]
       lochknife check ORIGIN COW [--json]
       lochknife diff ORIGIN COW [--json]
       lochknife compare A B [--json]
       lochknife table ORIGIN COW
       lochknife export ORIGIN COW OUT [--salvage [--chunk N] [--behind]] [--json]
       lochknife rollback ORIGIN COW OUT [--json]
       lochknife merge ORIGIN COW [--dry-run] [--json]
       lochknife repair COW NEW [--chunk N] [--behind] [--json]
       lochknife store ORIGIN SNAPSHOT NEW [--chunk N]
       lochknife nbd ORIGIN COW [--live]
       lochknife words NAME IMAGE
       lochknife image OUT
       lochknife help [COMMAND] | --help | --version

  show      the header's numbers, how many pairs, where they end, the numbers of the status line
  map       the pairs in runs: OLD NEW COUNT; with --raw each slot: AREA SLOT OLD NEW
  check     as show, for this origin, and every fault of the pairs
  diff      the bytes in which snapshot and origin differ, neighbours joined: differs START LENGTH
  compare   whether two images are the same, byte for byte
  table     the lines of tables that a kernel is given for both
  export    the array that the snapshot shows, into a new file OUT
  rollback  the same file as export: what the origin holds after the whole merge; merge is what changes ORIGIN
  merge     takes the copies back into ORIGIN itself, and its pairs away from COW; stopped at any moment, run it again
  repair    a new store NEW of the pairs that a salvage of COW keeps, which a kernel loads
  store     a new store NEW whose snapshot of ORIGIN is the array SNAPSHOT: of ORIGIN from before a merge, it undoes that
  nbd       serves the snapshot, for reading, to a client on standard input and output
  words     the lines of commands that make a disk NAME of dmrig with the bytes of any image
  image     the bytes that dmrig's answers to save tell, from standard input, into a new file OUT

COW is an image of a snapshot's store, ORIGIN one of its origin: files or block devices. OUT and NEW must not be there; as -
they are standard output. Options stand anywhere, a value behind its option or as --option=VALUE; after -- there are names only.

  --json      the answer as JSON: an object, or one a line
  --raw       whether the store is good or not
  --human     in KiB, MiB, GiB and percent
  --over ORIGIN  where each byte of the snapshot stands, in ranges; --picture, --svg FILE: which parts have copies
  -q, --quiet, --progress  tells never, or always, how far it is; with -q check, compare and merge print nothing
  --salvage   of a store that is refused, or can't be read everywhere: what is known of the array, and a list of what is not
  --chunk N   the sectors of a chunk, where the header is gone; of store, else 8
  --behind    also by the pairs behind the first empty slot
  --dry-run   what a merge would do; nothing is written
  --live      the snapshot alone, while `serve` writes both files
  -h, --help, -V, --version

Exit status: 0 the store is good; 1 it is refused, or two images differ; 2 something could not be read or written, or the words are wrong;
3 a merge is done, but could not be told.
";
