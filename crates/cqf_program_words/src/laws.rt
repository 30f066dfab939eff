//! That words are read as `clap` has them.
ghost use Rattle.cqf_program_words.specs.Operands.{ReadsCommands, ReadsOptions};

/// The words that `split_operands` reads as commands are exactly those that `clap` has. The options after which it reads a value are
/// exactly those of some command that take one.
pub fn words_are_read_as_clap_has_them()
    ensures commands { ReadsCommands }
    ensures options { ReadsOptions }
{}
