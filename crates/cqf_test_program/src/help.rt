//! Tests of the help that words request.
use cqf_program_words::read_words;
use std::alloc::Global;

/// Whether the help that the words request contains this text.
fn help_has(alloc: Global, words: &[&str], text: &str) -> bool {
    match read_words(alloc, words) {
        Ok(_) => false,
        Err(stop) => match std::str::from_utf8(stop.text.as_slice()) {
            Ok(help) => help.contains(text),
            Err(_) => false,
        },
    }
}

/// Words that request help, and a text that the help contains.
const HELP: &[(&[&str], &str)] = &[
    (&["--help"], "Usage: cqf <COMMAND>"),
    // for an empty line too
    (&[""], "Usage: cqf <COMMAND>"),
    (&["compile", "--help"], "--bridge <NAME> "),
    (&["compile", "--help"], "--software "),
    (&["compile", "--help"], "Usage: cqf compile [OPTIONS]\n"),
    (
        &["compile", "--help"],
        "cqf compile --format tc plan.toml\n",
    ),
    (&["port", "--help"], "a gate list    80 120000\n"),
    (&["run", "--help"], "a script       0 admit x\n"),
    (
        &["run", "--help"],
        "Usage: cqf run [OPTIONS] --cycles <N>\n",
    ),
    (&["run", "--help"], "--threads "),
    (
        &["run", "--help"],
        "The output is the history of the calls, a line of %%, and the book, which has\n",
    ),
    (
        &["report", "--help"],
        "Usage: cqf report [OPTIONS] --cycles <N>\n",
    ),
    (
        &["deliveries", "--help"],
        "Usage: cqf deliveries [OPTIONS] --cycles <N>\n",
    ),
    (
        &["deliveries", "--help"],
        "cqf deliveries --cycles 5 plan.toml calls.txt offers.csv\n",
    ),
    (
        &["check", "--help"],
        "Usage: cqf check [OPTIONS] --cycles <N>\n",
    ),
    (
        &["check", "--help"],
        "cqf: check: unfinished, under way U, not run O\n",
    ),
    (&["load", "--help"], "cqf load plan.toml\n"),
    (&["latency", "--help"], "Usage: cqf latency [OPTIONS]\n"),
    (&["latency", "--help"], "cqf latency --strict plan.toml\n"),
    (
        &["summary", "--help"],
        "Usage: cqf summary [OPTIONS] --cycles <N>\n",
    ),
    (
        &["summary", "--help"],
        "cqf summary --cycles 5 plan.toml calls.txt offers.csv\n",
    ),
    (
        &["hops", "--help"],
        "Usage: cqf hops [OPTIONS] --cycles <N>\n",
    ),
    (
        &["hops", "--help"],
        "cqf hops --cycles 5 --stream x plan.toml calls.txt offers.csv\n",
    ),
    (&["plan", "--help"], "Usage: cqf plan [OPTIONS]\n"),
    (&["plan", "--help"], "cqf plan network.toml\n"),
    (&["plan", "--help"], "--tries <N> "),
    (&["plan", "--help"], "--without <LINK> "),
    (&["load", "--help"], "--streams "),
    (&["compile", "--help"], "--edge-gates "),
    (&["diff", "--help"], "-q, --quiet "),
    (&["diff", "--help"], "cqf diff old.toml new.toml\n"),
];

#[test]
fn help_names_the_program_and_the_parts_of_its_input(rt: HostRuntime) {
    for (words, text) in HELP {
        assert!(rt; help_has(rt.alloc(), words, text));
    }
}
