// What the program says of itself.

/// Its name and version.
pub const VERSION: &str = "lochknife 1\n";

/// The words that are taken.
pub const HELP: &str =
    "lochknife takes snapshots of a disk image over stores, and serves them with it.

usage: lochknife new COW SIZE
       lochknife take ORIGIN COW [--chunk N]
       lochknife serve ORIGIN [--merge COW] [--snapshot COW].. [--chunk N] [--full refuse] [--anyway]

  new       makes an empty store: a new file COW of SIZE bytes, all of them zeros, and of no blocks until it is written.
            SIZE is a number, and K, M, G or T behind it; whole sectors of 512 bytes, from 1K to 1T. A file COW
            that is there is taken only if it has no bytes
  take      takes a snapshot of ORIGIN over the empty store COW, and makes it last: from now on whoever writes ORIGIN
            must know of COW: `serve` does
  serve     serves ORIGIN and the snapshot of each COW, to be read and written, to a client of the Network Block Device
            protocol on standard input and output. All snapshots that ORIGIN has must be named, at most eight: ORIGIN.snapshots
            has them, a list that take and serve write. Over an empty COW a snapshot is taken as it starts

ORIGIN and COW are files, of at most 1 TiB, which no other program uses. Options stand anywhere, a value behind its option or
as --option=VALUE; after -- there are names only.

  --chunk N   the sectors of a chunk: a power of two from 1 to 1024, and 8 where it is not given
  --snapshot COW   a snapshot; its export has the last part of that name, ORIGIN's is called origin and is the first
  --merge COW      rolls ORIGIN back: it shows the snapshot of COW from the start, which is copied back while the client asks for
                   nothing. It may be stopped at any moment: serve with it again until it says that it is done
  --anyway         gives up what ORIGIN.snapshots has and is not named here, and takes it out of that list
  --full refuse    where a COW is full, its own writes are refused, and it stays as it is; else the snapshot is lost
  -h, --help, -V, --version

Exit status: 0 it is done; 1 the store is refused, and nothing is written; 2 it could not run, or the words are wrong.
";
