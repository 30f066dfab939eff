//! The files that the words of a command line name.
ghost use Rattle.std.specs.Prelude.{◌≡◌, IfErr, IfOk, None, OnOk, Some, map, string_bytes};
ghost use Rattle.clap.specs.Words.{Text};
ghost use Rattle.cqf_output.specs.Stops.{EndsWith};
ghost use Rattle.cqf_program_words.specs.Operands.{after_word, ends_options, files_fault, is_option, is_standard, is_standard_twice, names_file, takes_files};
ghost use Rattle.cqf_program_words.specs.Operands.{split_of, split_so_far, with_word};

use crate::Job;
use crate::commands::{is_command, wants_value};
use cqf_output::{Stop, USAGE};
use std::alloc::{AllocError, Global};

/// What the next word is read as.
#[derive(Clone, Copy, Debug, PartialEq, Eq)]
enum WordPosition {
    /// The first word: a command or something else.
    Start,
    /// An option or a file.
    Free,
    /// The value of the option before it.
    Value,
    /// A file, regardless of its form.
    After,
    /// A word of no command that takes files.
    Other,
}

/// The words of a command line that name no files, and those that do, in their order.
#[derive(Drop)]
pub struct Operands<'a> {
    words: Vec<&'a str>,
    files: Vec<&'a str>,
    position: WordPosition,
}

/// Returns whether the word is the one that ends the options.
fn ends_options(word: &str) -> bool
    ensures { result ≡ ends_options word.now }
{
    word == "--"
}

/// Returns whether the word is an option: it begins with a minus, and isn't a minus alone.
fn is_option(word: &str) -> bool
    ensures { result ≡ is_option word.now }
{
    match *word.as_bytes() {
        [first, _, ..] => first == b'-',
        _ => false,
    }
}

impl WordPosition {
    /// Returns what the word after this one is read as.
    fn following(self, word: &str) -> WordPosition
        ensures { result ≡ after_word self word.now }
    {
        match self {
            WordPosition::Start if is_command(word) => WordPosition::Free,
            WordPosition::Start => WordPosition::Other,
            WordPosition::Free if wants_value(word) => WordPosition::Value,
            WordPosition::Free if ends_options(word) => WordPosition::After,
            WordPosition::Free | WordPosition::Value => WordPosition::Free,
            WordPosition::After => WordPosition::After,
            WordPosition::Other => WordPosition::Other,
        }
    }

    /// Returns whether the word names a file.
    fn names_file(self, word: &str) -> bool
        ensures { result ≡ names_file self word.now }
    {
        match self {
            WordPosition::Free => !is_option(word),
            WordPosition::After => true,
            WordPosition::Start | WordPosition::Value | WordPosition::Other => false,
        }
    }
}

impl<'a> Operands<'a> {
    /// Returns the words that name no files.
    pub fn words(&self) -> &[&'a str]
        ensures { result.now ≡ self.now.words.items }
    {
        self.words.as_slice()
    }

    /// Returns the words that name files.
    pub fn files(&self) -> &[&'a str]
        ensures { result.now ≡ self.now.files.items }
    {
        self.files.as_slice()
    }

    /// Adds one more word to those of its kind. Returns an error if an allocation fails.
    fn put(&mut self, word: &'a str) -> Result<(), AllocError>
        ensures { OnOk result (split_so_far self.new ≡ with_word (split_so_far self.old) word.now) }
    {
        if self.position.names_file(word) {
            self.files.push(word)?;
        } else {
            self.words.push(word)?;
        }
        self.position = self.position.following(word);
        Ok(())
    }
}

/// Separates the words that name files from the others: after a command, each word that is neither an option nor an option's value; after
/// `--`, each word. If the first word isn't a command, none names a file. Returns an error if an allocation fails.
pub fn split_operands<'a>(alloc: Global, words: &[&'a str]) -> Result<Operands<'a>, AllocError>
    ensures { IfOk result (λ operands. split_so_far operands ≡ split_of (map (λ word. word.now) words.now)) }
{
    let mut operands = Operands {
        words: Vec::new(alloc),
        files: Vec::new(alloc),
        position: WordPosition::Start,
    };
    for word in words {
        operands.put(word)?;
    }
    Ok(operands)
}

/// Separates the words with which a process was started, as [`split_operands`] does. Returns an error if an allocation fails.
pub fn operands_of(alloc: Global, words: &[String]) -> Result<Operands<'_>, AllocError>
    ensures { IfOk result (λ operands. split_so_far operands ≡ split_of (map string_bytes words.now)) }
{
    let mut texts = Vec::with_capacity(alloc, words.len())?;
    for word in words {
        texts.push(word.as_str())?;
    }
    split_operands(alloc, texts.as_slice())
}

/// The name of a file that means standard input.
pub const STANDARD: &str = "-";

/// Returns whether the file is standard input.
fn is_standard(file: &str) -> bool
    ensures { result ≡ is_standard file.now }
{
    file == STANDARD
}

/// Returns whether two of the files are standard input.
fn is_standard_twice(files: &[&str]) -> bool
    ensures { result ≡ is_standard_twice (map (λ file. file.now) files.now) }
{
    files.iter().filter(|file| is_standard(file)).count() >= 2
}

/// Returns whether the job takes this number of files: `diff` takes two, any other job takes any number.
fn takes_files(job: &Job, count: usize) -> bool
    ensures { result ≡ takes_files job.now count }
{
    match *job {
        Job::Diff { .. } => count == 2,
        _ => true,
    }
}

/// Checks that a job takes these files, at least one.
///
/// # Errors
/// With status 2 and a line if standard input is named twice, since it can be read only once; or if the job takes two files and there are
/// more or fewer. With status 3 if an allocation for the line fails.
pub fn check_files(alloc: Global, job: &Job, files: &[&str]) -> Result<(), Stop>
    ensures ok { OnOk result (files_fault job.now (map (λ file. file.now) files.now) ≡ None) }
    ensures err { IfErr result (λ stop. (line : Text) × (files_fault job.now (map (λ file. file.now) files.now) ≡ Some line) × EndsWith 2 line stop) }
{
    if is_standard_twice(files) {
        return Err(Stop::with_line(
            alloc,
            USAGE,
            "cqf: words: - is named twice: standard input can be read only once\n",
        ));
    }
    if !takes_files(job, files.len()) {
        return Err(Stop::with_line(
            alloc,
            USAGE,
            "cqf: words: diff takes two files: cqf diff OLD NEW\n",
        ));
    }
    Ok(())
}
