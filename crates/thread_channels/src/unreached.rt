// A branch that never comes.
use std::sync::Wait;

/// A branch that never comes, as a reader may see and no proof says. Were it reached, this would wait for ever, so that nothing
/// wrong is ever told.
pub fn never<R: Wait>(rt: &R) -> ! {
    for _ in rt.forever() {}
    unreachable!()
}
