//! One volume, command by command: what each command does to the raw bytes of every device, and to the layers above them, as
//! one function with no events, no holds and no copies in flight, whatever fails.
//!
//! `specs/Saves` and `Loads` say what saving a chunk and loading a store do to a store's raw bytes, and `Order` what holds of
//! them between two commands. Over them stand the big steps of devices that may fail: `Saving`, `Pieces`, `Requests`,
//! `Commands`, `Attaching`, `Moments`, and a merge in big steps (`Merges`, `MergeShown`; its laws are in `whole_command_laws`).
//! `Faultless` and `FaultlessAttaching` are the same over plain arrays and disks that never fail, and where no device has a
//! layer the two are one (`proofs/Faultless`, `FaultlessAttaching`).
//!
//! `Beside` and `MergedMoments` join the big steps with a merge and without one: a read, a write or a flush is the big step
//! beside a merge where one is begun, and the other where none is; time and messages change the layers of all devices, the
//! merging store's among them. A call that the program has no room for may be refused, as `Refusals` says, in place of what it
//! does.
//!
//! A live snapshot's array is computed from the raw bytes of its store and of the origin disk alone: saving a chunk and
//! loading a store leave it (`proofs/Laws`, `Trimmed`, `Made`), and so does a write of the origin over a chunk that was saved
//! (`proofs/Writes`). A store may be loaded exactly where its pairs are well formed and each full area has its successor
//! (`proofs/Loadable`). It stands on `cow_format`, `plain_machine`, `in_flight`, `device` and `cow_header`, and has no code that runs.
#![tactic(auto)]
