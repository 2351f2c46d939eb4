//! What a stop at any moment of a session loses: a volume over files is served call by call, and only what no flush acknowledged is
//! lost (`specs/Sessions`). What a call does to the volume is a deed of its history, behind what was done ahead (`proofs/Ahead`),
//! so what is known of arrays that were made last stays known through each call (`proofs/Calls`). A snapshot that the client wrote nothing
//! of is kept (`specs/Keeping`).
//!
//! It stands on `volume_lifetime`, whose words and laws it uses, and on `volume_nbd`, whose calls these are, and has no code that runs.
#![tactic(auto)]
