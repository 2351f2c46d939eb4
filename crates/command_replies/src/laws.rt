// Laws of printed data. No code calls these: their contracts are what they say.
ghost use Rattle.std.specs.List.{All, flat_map};
ghost use Rattle.std.specs.Prelude.{List, ℕ, replicate, ◌≡◌, ◌*◌, ◌≤◌, ◌<◌, length};
ghost use Rattle.words.specs.Words.{words_of};
ghost use Rattle.command.specs.DataWords.{payload_of};
ghost use Rattle.command_replies.specs.Runs.{runs_of, data_words, AreLongest};

/// The runs say the bytes again: each run its byte, so often as it counts.
#[tactic(auto, using(crate::proofs::RunLemmas::runs_say_bytes))]
pub fn runs_are_exact()
    ensures { (bytes : List ℕ) → flat_map (λ run. replicate run.0 run.1) (runs_of bytes) ≡ bytes }
{}

/// No run can be made longer.
#[tactic(auto, using(crate::proofs::RunLemmas::runs_longest))]
pub fn runs_are_longest()
    ensures { (bytes : List ℕ) → AreLongest (runs_of bytes) }
{}

/// Data of 1 to 2048 whole sectors, printed and then given to a command that takes data, is the same data.
pub fn printed_data_is_taken_back()
    ensures { (bytes : List ℕ) (n : ℕ) → All (λ b. b < 256) bytes → length bytes ≡ 512 * n → 0 < n → n ≤ 2048
        → payload_of (words_of (data_words bytes)) ≡ Ok bytes }
{}
