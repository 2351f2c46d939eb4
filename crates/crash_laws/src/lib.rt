//! A stop at any event: what a stop may leave of a device, and what is loaded from that.
//!
//! The machine may stop before, after or within each operation of a disk. What a sector may hold then is a parameter: without
//! caches it is its present value, or, within a write, the old or the new one, each sector by itself (`specs/Stop`). `Again`
//! says of what is left whether it is loaded again with an array, or refused as invalid; `Clauses` what a call of a volume
//! leaves at any moment within it; `May` and `Open` the same by each value that a sector may hold, for disks with caches, and
//! `Firm` what an operation adds to those values.
//!
//! The laws: of a torn area write the list is the old one and the first few of the new pairs, and of a merge's commit the kept
//! ones and the first few of the cleared (`proofs/Areas`), and each of these is loaded again (`Loads`); a call that leaves a
//! store's list leaves it at every stop within (`proofs/Clauses`). It stands on `cow_format` and `cow_header`, and has no code.
#![tactic(auto)]
