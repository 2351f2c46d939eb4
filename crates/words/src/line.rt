// A line cut into its words.
ghost use Rattle.std.specs.Prelude.{◌≡◌, IfOk};
ghost use Rattle.words.specs.Texts.{texts};
ghost use Rattle.words.specs.Words.{words_of};

use std::alloc::{AllocError, Global};

/// The words of a line, in order: what stands between its spaces. An error says that the allocator refused memory
/// for the list.
pub fn words_in(alloc: Global, line: &[u8]) -> Result<Vec<&[u8]>, AllocError>
    ensures { IfOk result (λ words. texts words.items ≡ words_of line.now) }
{
    line.split(|byte| *byte == b' ')
        .filter(|word| !word.is_empty())
        .collect(alloc)
}
