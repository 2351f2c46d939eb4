//! What a volume keeps true of its devices, its copies and its requests, stated over plain records, and the laws that
//! carry it over each event: every event leaves the plain machine as it is, spoils the snapshots that it names, or is the
//! one plain step that its reply tells. So does accepting a request, whose copies are started first (`specs/Accepting`,
//! `proofs/Accepted`), with a merge or without one; and a write that overflows the store of a snapshot marks that one alone
//! (`proofs/Overflowing`). `specs/Touched` says which chunks of the other snapshots a merge waits for, and `specs/MergeRooms`
//! what they keep back so that its events need no memory. It stands on `sector`, `cow_format`, `chunk`, `plain_machine` and `in_flight`, and
//! has no code that runs.
#![tactic(auto)]
