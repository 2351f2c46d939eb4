//! Why events in due order settle to the big step: a request that is submitted to a volume at rest ends, by the event of
//! `event_machine` that is due first again and again, in the one function of `whole_commands`, whatever fails: the same devices,
//! the same snapshots, the same reply, and the volume is at rest again (`proofs/Requests`). So does a whole command
//! (`proofs/Running`). A volume settles to one thing alone (`proofs/Ending`).
//!
//! So do the events of a merge, to the one function `merged` (`proofs/MergesSettle`): one pair at a time (`PairsSettle`), for
//! which the other snapshots save its chunk, and it is read and written back; then a group at a time (`GroupsSettle`). The
//! copies that a merged chunk waits for end in rounds, one of each snapshot that lacks one (`RoundsSettle`). Beside a merge a
//! request of one piece settles by its own events (`PartsSettle`), and so does a whole command (`CommandsSettle`).
//!
//! And the laws of the big steps, whatever fails. A write of the origin leaves what each snapshot shows that stays live
//! (`proofs/Shown`); time and messages leave a volume at rest (`proofs/Moments`). What the origin shows stays as it was from a
//! merge's beginning on, and other snapshots show what they showed or nothing any more (`proofs/MergeShows`); a merge that does
//! not fail leaves no pair, and the disk is then what the origin shows (`MergeEnds`); reads and writes meanwhile are those of
//! the origin's array (`MergeServes`, `MergeCommands`, `MergeReads`). A snapshot whose store had no pair, and that was never
//! written, undoes by its merge all that was written since, in requests of one piece (`specs/Undone`, `proofs/Undoes`,
//! `MergeLaws`).
//!
//! It stands on `event_machine`, `whole_commands` and `volume_laws`, and has no code that runs.
#![tactic(auto)]
