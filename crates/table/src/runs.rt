// The pairs of a snapshot in runs: pairs whose chunks of the origin and whose places on the store both rise by one.
ghost use Rattle.std.specs.Prelude.{◌≡◌, ◌≤◌, ◌∷◌, [], ◌++◌, List, OnOk, codes, decimal};
ghost use Rattle.sector.specs.declared.pair.Pair.{Pair as AnyPair};
ghost use Rattle.table.specs.Runs.{goes_on, run_text, runs_after};

use itoa::Buffer;
use sector::Pair;
use std::alloc::AllocError;

/// A run of pairs: the first, and how many they are.
#[derive(Clone, Copy)]
pub struct Run {
    pub first: Pair,
    pub count: u64,
}

impl Run {
    /// Whether a pair comes right after it.
    fn goes_on(self, pair: Pair) -> bool
        ensures { result ≡ goes_on self pair }
    {
        self.first.old.checked_add(self.count) == Some(pair.old)
            && self.first.new.checked_add(self.count) == Some(pair.new)
    }
}

// Adds a number.
fn add_number(out: &mut Vec<u8>, number: u64) -> Result<(), AllocError>
    ensures { OnOk result (out.new.items ≡ out.old.items ++ decimal number) }
{
    let mut buffer = Buffer::new();
    out.extend_from_slice(buffer.format(number).as_bytes())
}

// Adds a run.
fn add_run(out: &mut Vec<u8>, run: Run) -> Result<(), AllocError>
    ensures { OnOk result (out.new.items ≡ out.old.items ++ run_text run) }
{
    out.extend_from_slice(b"; ")?;
    add_number(out, run.first.old)?;
    out.push(b' ')?;
    add_number(out, run.first.new)?;
    out.push(b' ')?;
    add_number(out, run.count)
}

/// Takes the next pair: it goes on with the run, or that is added and a new one begins.
pub fn take_pair(out: &mut Vec<u8>, run: &mut Option<Run>, pair: Pair) -> Result<(), AllocError>
    requires { pair.old ≤ 4_294_967_295 }
    ensures { OnOk result ((pairs : List AnyPair) → out.new.items ++ runs_after run.new pairs ≡ out.old.items ++ runs_after run.old (pair ∷ pairs)) }
{
    if let Some(open) = run {
        if open.goes_on(pair) {
            open.count += 1;
            return Ok(());
        }
        add_run(out, *open)?;
    }
    *run = Some(Run {
        first: pair,
        count: 1,
    });
    Ok(())
}

/// Adds the run that is left, once all pairs are taken.
pub fn end_runs(out: &mut Vec<u8>, run: Option<Run>) -> Result<(), AllocError>
    ensures { OnOk result (out.new.items ≡ out.old.items ++ runs_after run []) }
{
    match run {
        Some(run) => add_run(out, run),
        None => Ok(()),
    }
}
