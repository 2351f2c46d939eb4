//! What each command does to what volumes show, in words of saved arrays and names alone (`specs/Arrays`, `specs/Shown`), and
//! why (`proofs`): a live snapshot that is not written shows what it showed, or is lost for good, or is gone; a merge makes
//! the origin show what the snapshot showed; nobody sees a merge going on; a write changes the array of its device alone.
//!
//! The rules of the commands are those of `command_semantics`, and the laws those of `whole_command_laws` and `volume_commands`. It has no code that runs.
#![tactic(auto)]
