// The first word of a line that breaks its form.
ghost use Rattle.std.specs.Prelude.{◌≡◌};
ghost use Rattle.words.specs.Texts.{texts};
ghost use Rattle.words.specs.Words.{words_of};
ghost use Rattle.explain_syntax.specs.Faults.{seen_in, fault_along, fault_of};

use crate::slot::{goes_on, slot_of, takes};
use words::next_word;

/// A word that breaks the form of its line.
#[derive(Clone, Copy)]
pub enum Fault<'a> {
    /// A word that its place does not take, and what the form has there.
    Unfit {
        word: &'a [u8],
        wants: &'static [u8],
    },
    /// A word behind the last of the form.
    TooMany {
        word: &'a [u8],
    },
    /// The line ends where the form has this.
    Missing {
        wants: &'static [u8],
    },
}

/// The first word that the last word of a form does not take, which goes on to the line's end.
fn fault_along<'a>(wants: &'static [u8], words: &[&'a [u8]]) -> Option<Fault<'a>>
    ensures { seen_in result ≡ fault_along wants.now (texts words.now) }
{
    for word in words {
        if !takes(wants, word) {
            return Some(Fault::Unfit { word: *word, wants });
        }
    }
    None
}

/// The first word that breaks what is left of a form; `None` where none does. It goes as deep as the form has words.
#[tactic(auto, using(crate::proofs::FaultLemmas::no_form, crate::proofs::FaultLemmas::one_missing, crate::proofs::FaultLemmas::one_unfit, crate::proofs::FaultLemmas::one_on, crate::proofs::FaultLemmas::one_fits))]
fn fault_from<'a>(form: &'static [u8], words: &[&'a [u8]]) -> Option<Fault<'a>>
    ensures { seen_in result ≡ fault_of (words_of form.now) (texts words.now) }
{
    match (next_word(form), words) {
        (None, []) => None,
        (None, [word, ..]) => Some(Fault::TooMany { word: *word }),
        (Some((wants, _)), []) => Some(Fault::Missing { wants }),
        (Some((wants, behind)), [word, more @ ..]) => {
            if !takes(wants, word) {
                Some(Fault::Unfit { word: *word, wants })
            } else if goes_on(slot_of(wants)) {
                fault_along(wants, more)
            } else {
                fault_from(behind, more)
            }
        }
    }
}

/// The first word that breaks a form; `None` where none does.
pub fn fault_in<'a>(form: &'static str, words: &[&'a [u8]]) -> Option<Fault<'a>>
    ensures { seen_in result ≡ fault_of (words_of form.now) (texts words.now) }
{
    fault_from(form.as_bytes(), words)
}
