// The command that a word is nearest to.
ghost use Rattle.std.specs.Prelude.{◌≡◌, ◌≤◌, length, find, nat_le, option_copied, reverse};
ghost use Rattle.std.specs.List.{list_all};
ghost use Rattle.words.specs.Texts.{texts};
ghost use Rattle.explain_syntax.specs.Near.{alike, unlike, distance, commands, is_nearest, near_command};

/// How many bytes two words have alike at their fronts.
#[tactic(auto, using(crate::proofs::NearLemmas::more_alike, crate::proofs::NearLemmas::no_more, crate::proofs::NearLemmas::none_left))]
fn alike(one: &[u8], other: &[u8]) -> usize
    ensures alike { result ≡ alike one.now other.now }
    ensures within { result ≤ length one.now }
    ensures within_other { result ≤ length other.now }
{
    let most = one.len().min(other.len());
    for at in 0..most {
        if one[at] != other[at] {
            return at;
        }
    }
    most
}

/// How many bytes two words have alike at their ends.
#[tactic(auto, using(crate::proofs::NearLemmas::more_at_end, crate::proofs::NearLemmas::no_more_at_end, crate::proofs::NearLemmas::none_left_at_end))]
fn alike_at_end(one: &[u8], other: &[u8]) -> usize
    ensures alike { result ≡ alike (reverse one.now) (reverse other.now) }
    ensures within { result ≤ length one.now }
{
    let most = one.len().min(other.len());
    for at in 0..most {
        if one[one.len() - 1 - at] != other[other.len() - 1 - at] {
            return at;
        }
    }
    most
}

/// The length of the longer of two words, without what they have alike at their ends.
fn unlike(one: &[u8], other: &[u8]) -> usize
    ensures { result ≡ unlike one.now other.now }
{
    one.len().max(other.len()) - alike_at_end(one, other)
}

/// How much of a word differs from a command: what is left of the longer once their fronts and their ends that are alike are taken
/// away, and one; one alone for a word that begins the command.
#[tactic(auto, unfolding(crate::specs::Near::distance))]
fn distance(word: &[u8], command: &[u8]) -> usize
    ensures { result ≡ distance word.now command.now }
{
    if command.starts_with(word) {
        return 1;
    }
    let front = alike(word, command);
    unlike(&word[front..], &command[front..]) + 1
}

/// Whether a command is no nearer to a word than this.
fn is_as_far(far: usize, word: &[u8], command: &str) -> bool
    ensures { result ≡ nat_le far (distance word.now command.now) }
{
    far <= distance(word, command.as_bytes())
}

/// Whether none of these commands is nearer to a word than this.
fn is_least(all: &[&str], word: &[u8], far: usize) -> bool
    ensures { result ≡ list_all (λ other. nat_le far (distance word.now other)) (texts all.now) }
{
    for other in all {
        if !is_as_far(far, word, *other) {
            return false;
        }
    }
    true
}

/// Whether a command is near enough to a word to be meant, and none of these is nearer.
fn is_nearest(all: &[&str], word: &[u8], command: &str) -> bool
    ensures { result ≡ is_nearest (texts all.now) word.now command.now }
{
    let far = distance(word, command.as_bytes());
    far < 4 && is_least(all, word, far)
}

/// The first of some commands that is nearest to a word.
fn nearest(all: &[&'static str], word: &[u8]) -> Option<&'static str>
    ensures { option_copied result ≡ find (is_nearest (texts all.now) word.now) (texts all.now) }
{
    for command in all {
        if is_nearest(all, word, command) {
            return Some(*command);
        }
    }
    None
}

/// The command that a word is nearest to, where it is near enough to be meant.
#[tactic(auto, unfolding(crate::specs::Near::near_command, crate::specs::Near::commands))]
pub fn near_command(word: &[u8]) -> Option<&'static str>
    ensures { option_copied result ≡ near_command word.now }
{
    let commands = [
        "disk",
        "create",
        "remove",
        "load",
        "save",
        "copy",
        "ls",
        "read",
        "write",
        "flush",
        "start",
        "step",
        "settle",
        "merge",
        "resume",
        "finish",
        "checkpoint",
        "stop",
        "message",
        "tick",
        "status",
        "table",
        "map",
        "par",
    ];
    nearest(&commands, word)
}
