//! The event machine: one volume event by event, over devices that may fail. A state has the devices' bytes and layers, and of
//! each snapshot and of a merge its pairs, its copies and its requests in flight, without buffers and room.
//!
//! Which event is due first, what each does, and what a submitted request starts are one function each (`specs/Held`, `Due`,
//! `Again`, `Stepping`, `Submitting`; of a merge `MergeDue`, `MergeStepping`, `Merging`); `Rest` and `MergeRest` say what a
//! volume between two requests is, and `Settles` what the events that are due end in. It takes its devices, its snapshots and
//! its big steps from `whole_commands`; `Seen` and `MergeSeen` say how its states look to the books of `volume_laws`, and
//! `proofs/Tied` and `MergeTied` that both choose the same event. It has no code that runs.
#![tactic(auto)]
