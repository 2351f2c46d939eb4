//! Blocks of lines that run at once, over the named devices: what each line finds under its name, and the run itself.
//!
//! It stands on `command` for what the lines say and what is answered, on `device_list` for the devices, and on `parallel_threads` for the
//! run of their tasks on threads. It promises which refusal comes first, before anything runs, and that a block that is
//! refused leaves all devices as they were; that one that runs changes no stack that nothing uses and no volume that no line
//! names; that each volume keeps its place and its names, but that a merge of one of its snapshots may have begun, drops no
//! more writes than before, and is quiet again; and that each line has one reply, in the order of the seats, by the task that
//! the line is; and that these are answered by entries, one list for each volume, which lawfully lead from what it showed to
//! what it shows, where no device of it ever dropped writes, and have no request of another seat and no merge that no line asks
//! for. In which of the lawful orders the seats' lines came is decided by the threads.
#![tactic(auto)]

mod looking;
mod planning;
mod running;
mod taking;

pub use running::run_block;
