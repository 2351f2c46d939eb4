// Words are split into names and options.
ghost use Rattle.std.specs.Prelude.{◌≡◌, [], ◌∷◌, map, drop, codes, nat_eq, OnOk, IfOk};
ghost use Rattle.std.specs.List.{starts_with};
ghost use Rattle.std.specs.String.{string_bytes};
ghost use Rattle.option_parser.specs.Splits.{is_option as is_option_by, behind as behind_by, value_in as value_by, own_value as own_value_by, option_in as option_in_by, is_one_of as is_one_of_by, split_by};
ghost use Rattle.option_parser.specs.Reading.{read_name, read_option, read_any, read_more, texts_of, text_in, given_of, given_in, reading_of, split_of};

use std::alloc::{AllocError, Global};

/// An option that is given, with its value.
#[derive(Clone, Copy)]
pub struct Given<'a> {
    pub option: &'a str,
    pub value: Option<&'a str>,
}

/// What the next word is.
#[derive(Clone, Copy)]
pub enum Next<'a> {
    /// A name or an option.
    Any,
    /// The value of this option.
    Value(&'a str),
    /// A name, as all behind it.
    Name,
}

/// The words of a command line: its names in their order, the command's first, and its options, wherever they stand.
#[derive(Drop)]
pub struct Words<'a> {
    pub(crate) names: Vec<&'a str>,
    pub(crate) options: Vec<Given<'a>>,
    pub(crate) next: Next<'a>,
}

/// Splits words, the first of which is the program's own name. An option begins with `-` and has something behind it; one of `valued`
/// has a value, as `--option VALUE` or `--option=VALUE`. After the word `--` there are names only.
pub fn split<'a>(
    alloc: Global,
    valued: &[&'static str],
    words: &'a [String],
) -> Result<Words<'a>, AllocError>
    ensures { IfOk result (λ split. split_of split ≡ split_by (texts_of valued.now) (drop 1 (map string_bytes words.now))) }
{
    let mut split = Words {
        names: Vec::new(alloc),
        options: Vec::new(alloc),
        next: Next::Any,
    };
    let Some((_, words)) = words.split_first() else {
        return Ok(split);
    };
    for word in words {
        split.add(valued, word.as_str())?;
    }
    Ok(split)
}

/// Whether a word is an option.
fn is_option(word: &str) -> bool
    ensures { result ≡ is_option_by word.now }
{
    begins_with_dash(word) && word != "-"
}

/// Whether a word begins with `-`.
fn begins_with_dash(word: &str) -> bool
    ensures { result ≡ starts_with nat_eq word.now (codes "-") }
{
    word.starts_with("-")
}

/// Whether a word is one of these options.
pub fn is_one_of(options: &[&str], word: &str) -> bool
    ensures { result ≡ is_one_of_by (texts_of options.now) word.now }
{
    for option in options {
        if *option == word {
            return true;
        }
    }
    false
}

/// What stands behind a word's front.
fn behind<'a>(front: &str, word: &'a str) -> Option<&'a str>
    ensures { text_in result ≡ behind_by front.now word.now }
{
    word.strip_prefix(front)
}

/// The value in a word `option=VALUE`.
fn value_in<'a>(option: &str, word: &'a str) -> Option<&'a str>
    ensures { text_in result ≡ value_by option.now word.now }
{
    let rest = behind(option, word)?;
    behind("=", rest)
}

/// One of the options that take a value, where a word is that one and its value.
fn own_value<'a>(valued: &[&'static str], word: &'a str) -> Option<Given<'a>>
    ensures { given_in result ≡ own_value_by (texts_of valued.now) word.now }
{
    for option in valued {
        if let Some(value) = value_in(option, word) {
            return Some(Given {
                option: *option,
                value: Some(value),
            });
        }
    }
    None
}

/// The option of a word, with the value that stands in it.
fn option_in<'a>(valued: &[&'static str], word: &'a str) -> Given<'a>
    ensures { given_of result ≡ option_in_by (texts_of valued.now) word.now }
{
    match own_value(valued, word) {
        Some(given) => given,
        None => Given {
            option: word,
            value: None,
        },
    }
}

impl<'a> Words<'a> {
    /// Adds a word.
    fn add(&mut self, valued: &[&'static str], word: &'a str) -> Result<(), AllocError>
        ensures { OnOk result (reading_of self.new ≡ read_more (texts_of valued.now) (reading_of self.old) word.now) }
    {
        match self.next {
            Next::Any => self.add_any(valued, word),
            Next::Value(option) => {
                let value = Some(word);
                self.add_option(Given { option, value })
            }
            Next::Name => self.add_name(word),
        }
    }

    /// Adds a name.
    fn add_name(&mut self, word: &'a str) -> Result<(), AllocError>
        ensures { OnOk result (reading_of self.new ≡ read_name (reading_of self.old) word.now) }
    {
        self.names.push(word)?;
        Ok(())
    }

    /// Adds an option, with its value if it takes one.
    fn add_option(&mut self, given: Given<'a>) -> Result<(), AllocError>
        ensures { OnOk result (reading_of self.new ≡ read_option (reading_of self.old) (given_of given.entry)) }
    {
        self.options.push(given)?;
        self.next = Next::Any;
        Ok(())
    }

    /// Adds a name or an option, or the word behind which there are names only.
    fn add_any(&mut self, valued: &[&'static str], word: &'a str) -> Result<(), AllocError>
        ensures { OnOk result (reading_of self.new ≡ read_any (texts_of valued.now) (reading_of self.old) word.now) }
    {
        if word == "--" {
            self.next = Next::Name;
            return Ok(());
        }
        if !is_option(word) {
            return self.add_name(word);
        }
        if is_one_of(valued, word) {
            self.next = Next::Value(word);
            return Ok(());
        }
        self.add_option(option_in(valued, word))
    }
}
