// The run of a block.
ghost use Rattle.std.specs.Prelude.{◌≡◌, ◌+◌, ◌<◌, ◌≤◌, ◌++◌, ℕ, List, [], None, map, length, slice_index_or, vec_len, vec_capacity, false, true, IfErr, IfOk, IfSome, OnErr, OnOk};
ghost use Rattle.std.specs.List.{All, AllZip, count_by};
ghost use Rattle.sector.specs.declared.refusal.Refusal.TheVariants.{NoMemory};
ghost use Rattle.layers.specs.declared.stack.Stack.{Stack as StackShape};
ghost use Rattle.layers.specs.Stack.{stack_layers, stack_size};
ghost use Rattle.audited_volume.specs.Books.{AuditShape};
ghost use Rattle.device_list.specs.Tables.{StaysNamed, StaysSound, table_of};
ghost use Rattle.parallel_threads.specs.Left.{AllAddAskedFor};
ghost use Rattle.parallel_threads.specs.Tasks.{AreTold, tasks_at};
ghost use Rattle.parallel_lines.specs.Answering.{AreAnswered, AreEnded, AreForTasks, AreReplied, gate_replies, replies_of, reply_of};
ghost use Rattle.parallel_lines.specs.Looking.{block_refusal};
ghost use Rattle.parallel_lines.specs.Played.{ArePlayed, Story};
ghost use Rattle.parallel_lines.specs.Running.{AreRun, IsOfBlock, IsRefusedFor, IsTableRun, all_told, seat_in};
ghost use Rattle.parallel_lines.specs.Spared.{KeepsStacks, NoneAdded, SparesOnErr};
ghost use Rattle.parallel_lines.specs.Taking.{IsLeft};

use crate::looking::all_found;
use crate::planning::{BlockPlan, planned};
use crate::taking::{put_back, take_all};
use audited_volume::Audit;
use command::{LineBlock, refusal_among};
use command_replies::{CommandReply, SeatAnswer, Seated};
use device_list::Devices;
use layers::Stack;
use parallel_threads::{Hold, Task, run_seats};
use sector::Refusal;
use std::alloc::Global;
use std::mem;
use std::sync::Wait;
use std::thread::Threads;

/// Why a block is refused before anything runs. The one error is `NoMemory`.
#[tactic(auto, unfolding(crate::specs::Looking::block_refusal))]
fn refused(alloc: Global, held: &Devices, block: &LineBlock) -> Result<(), Refusal>
    ensures ok { IfOk result (λ _. block_refusal block.now (table_of held.now) ≡ None) }
    ensures err { IfErr result (λ e. IsRefusedFor e block.now (table_of held.now)) }
{
    if let Some(refusal) = block.refusal() {
        return Err(refusal);
    }
    let found = all_found(alloc, held, block.lines()).map_err(|_| Refusal::NoMemory)?;
    match refusal_among(&found) {
        Some(refusal) => Err(refusal),
        None => Ok(()),
    }
}

/// Runs the tasks of seats at the audits of so many volumes that they use, and tells whether they were run: not where one of
/// these could not be taken out.
fn run<R: Threads + Wait + Sync>(
    rt: &R,
    alloc: Global,
    audits: Vec<Audit<Stack>>,
    many: usize,
    workers: u32,
    hold: &Hold,
    tasks: &mut Vec<Vec<Task>>,
) -> (Vec<Audit<Stack>>, bool)
    requires few { workers ≤ 4 }
    requires eight { length tasks.old.items ≡ 8 }
    requires none { (k : ℕ) (d : AuditShape StackShape) → k < length audits.items → (slice_index_or audits.items k d).held ≡ [] }
    ensures many { result.1 ≡ true → many ≤ length result.0.items }
    ensures left { AllZip IsLeft audits.items result.0.items }
    ensures eight { length tasks.new.items ≡ 8 }
    ensures spared { result.1 ≡ false → NoneAdded audits.items result.0.items }
    ensures told { result.1 ≡ true → (i : ℕ) → i < 8 → AreTold stack_size stack_layers audits.items result.0.items (i + 1) (tasks_at tasks.old.items i) (tasks_at tasks.new.items i) }
    ensures asked { result.1 ≡ true → AllAddAskedFor (tasks_at tasks.old.items) audits.items result.0.items }
{
    if audits.len() < many {
        return (audits, false);
    }
    match run_seats(rt, alloc, audits, workers as usize, hold, tasks) {
        Ok(audits) => (audits, true),
        Err((_, audits)) => (audits, false),
    }
}

/// How many volumes are used.
fn count_used(used: &[bool]) -> usize
    ensures { result ≡ count_by (λ is_used. is_used) used.now }
{
    used.iter().filter(|used| **used).count()
}

/// Takes the volumes out that are used, runs the tasks at them, and puts each back in its place. `NoMemory` where the tasks
/// were not run.
fn at_once<R: Threads + Wait + Sync>(
    rt: &R,
    alloc: Global,
    held: &mut Devices,
    used: &[bool],
    workers: u32,
    hold: &Hold,
    tasks: &mut Vec<Vec<Task>>,
) -> Result<(), Refusal>
    requires few { workers ≤ 4 }
    requires many { length used.now ≡ length (table_of held.old).volumes }
    requires eight { length tasks.old.items ≡ 8 }
    ensures eight { OnOk result (length tasks.new.items ≡ 8) }
    ensures played { OnOk result ((played : List Story) × ArePlayed used.now played (table_of held.old).volumes (table_of held.new).volumes × AreEnded played (tasks_at tasks.old.items) (tasks_at tasks.new.items) × AreForTasks played (tasks_at tasks.old.items)) }
    ensures err { IfErr result (λ e. e ≡ NoMemory) }
    ensures spared { SparesOnErr result held.old held.new }
    ensures stacks { KeepsStacks held.old held.new }
    ensures volumes { AreRun used.now (table_of held.old).volumes (table_of held.new).volumes }
{
    let volumes = held.volumes.len();
    let mut slots = Vec::with_capacity(alloc, volumes).map_err(|_| Refusal::NoMemory)?;
    let mut audits = Vec::with_capacity(alloc, volumes).map_err(|_| Refusal::NoMemory)?;
    take_all(&mut held.volumes, used, &mut slots, &mut audits);
    let (mut audits, ran) = run(rt, alloc, audits, count_used(used), workers, hold, tasks);
    while let Some(slot) = slots.pop() {
        held.volumes.push_reserved(put_back(slot, &mut audits));
    }
    if ran { Ok(()) } else { Err(Refusal::NoMemory) }
}

/// The reply to a line by its task.
fn reply_to(seat: u8, task: Task) -> CommandReply
    ensures { result ≡ reply_of seat task }
{
    let Task { job: _, answer } = task;
    CommandReply::Seat(Seated {
        seat,
        answer: answer.unwrap_or(SeatAnswer::Refused(Refusal::NoMemory)),
    })
}

/// The replies to the lines of a seat, by its tasks.
fn tell_seat(replies: &mut Vec<CommandReply>, seat: u8, tasks: Vec<Task>)
    requires room { vec_len replies.old + vec_len tasks ≤ vec_capacity replies.old }
    ensures told { replies.new.items ≡ replies.old.items ++ map (reply_of seat) tasks.items }
    ensures room { vec_capacity replies.new ≡ vec_capacity replies.old }
{
    for task in tasks {
        replies.push_reserved(reply_to(seat, task));
    }
}

/// The replies to all lines, by the tasks of each seat, the first seat's first.
fn tell_seats(alloc: Global, replies: &mut Vec<CommandReply>, tasks: Vec<Vec<Task>>)
    requires none { replies.old.items ≡ [] }
    requires eight { length tasks.items ≡ 8 }
    requires room { length (replies_of (tasks_at tasks.items)) < vec_capacity replies.old }
    ensures told { replies.new.items ≡ replies_of (tasks_at tasks.items) }
    ensures room { vec_len replies.new < vec_capacity replies.new }
{
    let mut tasks = tasks;
    for seat in 1u8..9 {
        let list = mem::replace(&mut tasks[usize::from(seat) - 1], Vec::new(alloc));
        tell_seat(replies, seat, list);
    }
}

/// How the gate ended, where a ticket is held.
fn tell_gate(replies: &mut Vec<CommandReply>, ticket: Option<u32>, opened: bool)
    requires room { vec_len replies.old < vec_capacity replies.old }
    ensures told { replies.new.items ≡ replies.old.items ++ gate_replies ticket opened }
{
    match ticket {
        Some(_) => replies.push_reserved(CommandReply::Gate(opened)),
        None => {}
    }
}

/// Runs what the lines of a block ask. The one error is `NoMemory`: then no request of a seat was made.
fn run_plan<R: Threads + Wait + Sync>(
    rt: &R,
    alloc: Global,
    held: &mut Devices,
    plan: BlockPlan,
    workers: u32,
    ticket: Option<u32>,
) -> Result<Vec<CommandReply>, Refusal>
    requires few { workers ≤ 4 }
    requires many { length plan.used.items ≡ length (table_of held.old).volumes }
    requires eight { length plan.tasks.items ≡ 8 }
    requires none { plan.replies.items ≡ [] }
    requires room { length (replies_of (tasks_at plan.tasks.items)) < vec_capacity plan.replies }
    ensures told { IfOk result (λ replies. (played : List Story) × ArePlayed plan.used.items played (table_of held.old).volumes (table_of held.new).volumes × AreReplied ticket played (tasks_at plan.tasks.items) replies.items) }
    ensures err { IfErr result (λ e. e ≡ NoMemory) }
    ensures spared { SparesOnErr result held.old held.new }
    ensures stacks { KeepsStacks held.old held.new }
    ensures volumes { AreRun plan.used.items (table_of held.old).volumes (table_of held.new).volumes }
{
    let BlockPlan {
        used,
        mut tasks,
        mut replies,
    } = plan;
    let hold = Hold::new(ticket);
    at_once(rt, alloc, held, &used, workers, &hold, &mut tasks)?;
    tell_seats(alloc, &mut replies, tasks);
    tell_gate(&mut replies, ticket, hold.opened());
    Ok(replies)
}

/// Runs a block: the lines of each seat in their order on a thread of their own, all seats at once, with so many workers for
/// the copies. Gives the reply to each line, by seat and then by line, and last, where the block holds a ticket, how its gate
/// ended.
///
/// In this order, before anything runs: `BadTable` for a line of another form, or for a device of another kind than its line
/// asks for; `NoSuchDevice` for a name that no device has; `NotQuiet` for a volume in which something is left to do; `NoMemory`
/// may stand in place of each; then no device changed. `NoMemory` too where a worker can't be started, and then no request of a
/// seat was made, though a merge that a line asks for may have begun.
pub fn run_block<R: Threads + Wait + Sync>(
    rt: &R,
    alloc: Global,
    held: &mut Devices,
    block: LineBlock,
    workers: u32,
) -> Result<Vec<CommandReply>, Refusal>
    requires some { 1 ≤ workers }
    requires few { workers ≤ 4 }
    ensures told { IfOk result (λ replies. All IsOfBlock replies.items) }
    ensures seats { IfOk result (λ replies. map seat_in replies.items ≡ all_told block) }
    ensures answers { IfOk result (λ replies. AreAnswered block (table_of held.old) (table_of held.new) replies.items) }
    ensures runs { IfOk result (λ _. block_refusal block (table_of held.old) ≡ None) }
    ensures refused { IfErr result (λ e. IsRefusedFor e block (table_of held.old)) }
    ensures spared { SparesOnErr result held.old held.new }
    ensures stays { IfSome (block_refusal block (table_of held.old)) (λ _. table_of held.new ≡ table_of held.old) }
    ensures run { IsTableRun block.lines (table_of held.old) (table_of held.new) }
    ensures sound { StaysSound held.old held.new }
    ensures named { StaysNamed held.old held.new }
{
    refused(alloc, held, &block)?;
    let ticket = block.opening().hold;
    let plan = planned(alloc, held, block.into_lines())?;
    run_plan(rt, alloc, held, plan, workers, ticket)
}
