// The names of a stack.
ghost use Rattle.std.specs.Prelude.{◌≡◌, ◌<◌, ◌∷◌, [], length, IfOk, IfSome};
ghost use Rattle.command_semantics.specs.Places.{depth_in};

use std::alloc::{AllocError, Global};
use words::Name;

/// How deep a name stands among the names of a stack.
pub fn depth_in(names: &[Name], name: &Name) -> Option<usize>
    ensures depth { result ≡ depth_in name.now names.now }
    ensures within { IfSome result (λ depth. depth < length names.now) }
{
    names.iter().position(|other| other.is_same(name))
}

/// One name.
pub fn one_name(alloc: Global, name: Name) -> Result<Vec<Name>, AllocError>
    ensures { IfOk result (λ names. names.items ≡ name ∷ []) }
{
    let mut names = Vec::with_capacity(alloc, 1)?;
    names.push_reserved(name);
    Ok(names)
}
