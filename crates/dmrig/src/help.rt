// What stands behind the options in the help. The launcher at the top reads it from here, where the program is not built yet.

/// The commands, a line each, how a session ends, and the exit status.
pub const NOTES: &str = "Commands, a line each:
  disk NAME N           a disk of N zero sectors
  create NAME LINE      a device by a table line, as: create vol 0 128 snapshot-origin base
  remove NAME           takes a device away
  load DISK S DATA      writes sectors of a disk that nothing uses, from sector S on
  save DISK S N         N sectors of a disk, past all layers
  copy DISK S DISK N    N sectors of a disk, written to the same place of another, which nothing uses
  ls                    all devices, each with its table line
  read DEV S N          N sectors of an origin or a snapshot
  write DEV S DATA      writes sectors of an origin or a snapshot
  flush DEV             makes what was written to an origin or a snapshot last
  start DEV read S N    accepts a request, and does no event of it; also: start DEV write S DATA
  step VOL EVENT        one event of the volume of an origin
  settle VOL            the events that are due, those of a merge too
  merge SNAP            begins to merge a snapshot into its origin
  resume VOL            lets a merge go on that failed
  finish VOL            takes out a merge that has come to its end
  checkpoint VOL        makes room in the volume's journal
  stop VOL              ends a volume at once; stop VOL lose: its disks lose their caches too
  message DEV 0 WORDS   tells a layer
  tick N                N seconds pass for the flakey layers
  status DEV            the status line of an origin or a snapshot
  table DEV             the table line of any device but a disk
  map SNAP              the pairs of a snapshot, in runs: OLD NEW COUNT
  par                   opens a block of lines that run at once, up to a line end; also: par hold K
DATA is runs of equal bytes, COUNT*HH. A line that begins with # is a comment. Ctrl-D ends a session.

Each answer is written out before more input is waited for, so that a program, or a person, can talk with dmrig line by line.
Exit status: 0; 1 where an answer began with err; 2 where words, file or output were wrong.";
