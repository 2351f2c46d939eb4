//! Why a volume saves first: what one event of it does to the two files of a snapshot, the origin's and its store's, while another
//! program reads them. A chunk of the origin is written only once its copy's pair stands in the store, the copies that there are
//! stay, and a lost snapshot's header is marked before anything is written that it could not save (`specs/Saves`). So the volume is
//! a writer whose snapshots `read_beside_writer` may read: its words say here what is kept.
//!
//! A moment may lie within an event: of each file each sector is then as before or as after. Of bytes alone: a write of the origin
//! where there are copies, and a write of one chunk of a store that no pair names, save first at any two moments (`proofs/Copies`).
//! What an event changes is the event machine's (`proofs/Changes`): of the origin, or of one store, never of both. That it is such
//! a write follows from what a volume keeps, for each kind of write (`proofs/Writes`, `Snaps`), for one snapshot among the others
//! (`Laws`), and so for an event of a volume (`Events`), also behind what was done ahead (`Aheads`). Moments one after another are
//! a history that may be read (`Histories`).
//!
//! It stands on `volume` and what that is made of, and on `read_beside_writer`, and has no code that runs.
#![tactic(auto)]
