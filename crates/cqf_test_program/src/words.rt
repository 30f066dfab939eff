//! Tests of the job that words mean, and of words that are mistakes.
use cqf_output::{DONE, USAGE};
use cqf_program_words::{Format, Job, PlanOptions, read_words};
use cqf_units::Rate;
use std::alloc::Global;

/// A job whose words name no stream, bridge or candidates: a job of `cqf_program_words` can have what a constant table
/// can't.
enum Meant {
    Port {
        until: u64,
        rate: Rate,
    },
    Line {
        cycles: u32,
    },
    CompileList,
    CompileTc {
        is_software: bool,
    },
    CompileJson,
    CompileEdges,
    Load {
        streams: bool,
    },
    Latency {
        strict: bool,
    },
    Run {
        cycles: u32,
        threads: bool,
    },
    Report {
        cycles: u32,
    },
    Deliveries {
        cycles: u32,
    },
    Check {
        cycles: u32,
    },
    Summary {
        cycles: u32,
    },
    Offers {
        cycles: u32,
        seed: Option<u32>,
    },
    Hops {
        cycles: u32,
        frame: Option<u32>,
    },
    Plan {
        table: bool,
        tries: u32,
        best: bool,
        verbose: bool,
    },
    Diff {
        quiet: bool,
    },
}

/// The job; one of `plan` has the candidates of the file and leaves out no link.
fn job_of(alloc: Global, meant: &Meant) -> Job {
    match *meant {
        Meant::Port { until, rate } => Job::Port { until, rate },
        Meant::Line { cycles } => Job::Line { cycles },
        Meant::CompileList => Job::Compile {
            format: Format::List,
            edge_gates: false,
        },
        Meant::CompileTc { is_software } => Job::Compile {
            format: Format::Tc { is_software },
            edge_gates: false,
        },
        Meant::CompileJson => Job::Compile {
            format: Format::Json,
            edge_gates: false,
        },
        Meant::CompileEdges => Job::Compile {
            format: Format::List,
            edge_gates: true,
        },
        Meant::Load { streams } => Job::Load { streams },
        Meant::Latency { strict } => Job::Latency { strict },
        Meant::Run { cycles, threads } => Job::Run { cycles, threads },
        Meant::Report { cycles } => Job::Report { cycles },
        Meant::Deliveries { cycles } => Job::Deliveries { cycles },
        Meant::Check { cycles } => Job::Check { cycles },
        Meant::Summary { cycles } => Job::Summary { cycles },
        Meant::Offers { cycles, seed } => Job::Offers { cycles, seed },
        Meant::Hops { cycles, frame } => Job::Hops {
            cycles,
            stream: None,
            frame,
        },
        Meant::Plan {
            table,
            tries,
            best,
            verbose,
        } => Job::Plan {
            options: PlanOptions {
                table,
                given: None,
                tries,
                best,
                without: Vec::new(alloc),
                verbose,
            },
        },
        Meant::Diff { quiet } => Job::Diff { quiet },
    }
}

const FIVE: Meant = Meant::Port {
    until: 5,
    rate: Rate::Mb1000,
};

const FIVE_SLOWLY: Meant = Meant::Port {
    until: 5,
    rate: Rate::Mb10,
};

const MOST_AT_THE_MIDDLE_RATE: Meant = Meant::Port {
    until: 100_000_000,
    rate: Rate::Mb100,
};

const AS_SCRIPT: Meant = Meant::CompileTc { is_software: false };

const FIRST_GOOD: Meant = Meant::Plan {
    table: false,
    tries: 50,
    best: false,
    verbose: false,
};

const AS_TABLE: Meant = Meant::Plan {
    table: true,
    tries: 50,
    best: false,
    verbose: false,
};

const BEST_OF_NO_TRIES: Meant = Meant::Plan {
    table: false,
    tries: 0,
    best: true,
    verbose: true,
};

const OF_MOST_TRIES: Meant = Meant::Plan {
    table: false,
    tries: 1_000,
    best: false,
    verbose: false,
};

const IN_SOFTWARE: Meant = Meant::CompileTc { is_software: true };

/// Words, and the job that they mean or the status with which they end.
const CASES: &[(&[&str], Option<Meant>, u8)] = &[
    (&["port", "--until", "5"], Some(FIVE), DONE),
    (
        &["port", "--rate", "10", "--until", "5"],
        Some(FIVE_SLOWLY),
        DONE,
    ),
    (
        &["port", "--rate", "100", "--until", "100000000"],
        Some(MOST_AT_THE_MIDDLE_RATE),
        DONE,
    ),
    (
        &["line", "--cycles", "100000"],
        Some(Meant::Line { cycles: 100_000 }),
        DONE,
    ),
    (&["compile"], Some(Meant::CompileList), DONE),
    (
        &["compile", "--format", "list"],
        Some(Meant::CompileList),
        DONE,
    ),
    (&["compile", "--format", "tc"], Some(AS_SCRIPT), DONE),
    (&["compile", "--format=tc"], Some(AS_SCRIPT), DONE),
    (
        &["compile", "--software", "--format", "tc"],
        Some(IN_SOFTWARE),
        DONE,
    ),
    (
        &["compile", "--format", "json"],
        Some(Meant::CompileJson),
        DONE,
    ),
    // a bridge is given only with `env`, and software only with `tc`
    (&["compile", "--format", "env"], None, USAGE),
    (&["compile", "--bridge", "a"], None, USAGE),
    (&["compile", "--format", "tc", "--bridge", "a"], None, USAGE),
    (
        &["compile", "--format", "json", "--bridge", "a"],
        None,
        USAGE,
    ),
    (&["compile", "--software"], None, USAGE),
    (&["compile", "--format", "json", "--software"], None, USAGE),
    (
        &["compile", "--format", "env", "--bridge", "a", "--software"],
        None,
        USAGE,
    ),
    (
        &["compile", "--format", "tc", "--software=true"],
        None,
        USAGE,
    ),
    (&["load", "--bridge", "a"], None, USAGE),
    (&["latency", "--software"], None, USAGE),
    // the format is an option of `compile` only, has one of four values, and occurs once
    (&["compile", "--format"], None, USAGE),
    (&["compile", "--format", "TC"], None, USAGE),
    (&["compile", "--format", "lists"], None, USAGE),
    (&["compile", "--format", ""], None, USAGE),
    (
        &["compile", "--format", "tc", "--format", "tc"],
        None,
        USAGE,
    ),
    (&["compile", "tc"], None, USAGE),
    (&["compile", "--cycles", "5"], None, USAGE),
    (&["--format", "tc", "compile"], None, USAGE),
    (&["load", "--format", "tc"], None, USAGE),
    (&["port", "--until", "5", "--format", "tc"], None, USAGE),
    (&["compile", "--edge-gates", "--edge-gates"], None, USAGE),
    (&["load"], Some(Meant::Load { streams: false }), DONE),
    (&["load", "--stream"], None, USAGE),
    (&["latency"], Some(Meant::Latency { strict: false }), DONE),
    (
        &["latency", "--strict"],
        Some(Meant::Latency { strict: true }),
        DONE,
    ),
    (&["load", "--strict"], None, USAGE),
    (&["compile", "--strict"], None, USAGE),
    (&["latency", "--strict=true"], None, USAGE),
    (&["latency", "--strict", "--strict"], None, USAGE),
    (&["load", "--cycles", "5"], None, USAGE),
    (
        &["run", "--cycles", "1"],
        Some(Meant::Run {
            cycles: 1,
            threads: false,
        }),
        DONE,
    ),
    (
        &["run", "--cycles", "1", "--threads"],
        Some(Meant::Run {
            cycles: 1,
            threads: true,
        }),
        DONE,
    ),
    (
        &["run", "--threads", "--cycles", "100000"],
        Some(Meant::Run {
            cycles: 100_000,
            threads: true,
        }),
        DONE,
    ),
    (
        &["report", "--cycles", "100000"],
        Some(Meant::Report { cycles: 100_000 }),
        DONE,
    ),
    (
        &["deliveries", "--cycles", "1"],
        Some(Meant::Deliveries { cycles: 1 }),
        DONE,
    ),
    (
        &["deliveries", "--cycles", "100000"],
        Some(Meant::Deliveries { cycles: 100_000 }),
        DONE,
    ),
    (
        &["check", "--cycles=100000"],
        Some(Meant::Check { cycles: 100_000 }),
        DONE,
    ),
    (&["deliveries"], None, USAGE),
    (&["check"], None, USAGE),
    (&["deliveries", "--cycles", "0"], None, USAGE),
    (&["deliveries", "--cycles", "100001"], None, USAGE),
    (&["check", "--cycles", "0"], None, USAGE),
    (&["check", "--cycles", "100001"], None, USAGE),
    (&["check", "--cycles", "3", "--cycles", "3"], None, USAGE),
    (&["deliveries", "--cycles", "3", "--threads"], None, USAGE),
    (&["check", "--cycles", "3", "--threads"], None, USAGE),
    (&["check", "--cycles", "3", "--strict"], None, USAGE),
    (&["run"], None, USAGE),
    (&["run", "--cycles", "100001"], None, USAGE),
    // the flag is one of `run` only, takes no value, and occurs once, with its full name
    (&["run", "--threads"], None, USAGE),
    (&["line", "--cycles", "3", "--threads"], None, USAGE),
    (&["report", "--cycles", "3", "--threads"], None, USAGE),
    (&["--threads", "run", "--cycles", "3"], None, USAGE),
    (&["run", "--cycles", "3", "--threads", "true"], None, USAGE),
    (&["run", "--cycles", "3", "--threads=true"], None, USAGE),
    (
        &["run", "--threads", "--cycles", "3", "--threads"],
        None,
        USAGE,
    ),
    (&["run", "--cycles", "3", "--thread"], None, USAGE),
    (&["report", "--cycles", "0"], None, USAGE),
    (&["port", "--until", "0"], None, USAGE),
    (&["port", "--until", "100000001"], None, USAGE),
    (&["port", "--cycles", "5"], None, USAGE),
    (&["port", "--until", "5", "--rate", "20"], None, USAGE),
    (
        &["summary", "--cycles", "1"],
        Some(Meant::Summary { cycles: 1 }),
        DONE,
    ),
    (
        &["summary", "--cycles", "100000"],
        Some(Meant::Summary { cycles: 100_000 }),
        DONE,
    ),
    (&["summary"], None, USAGE),
    (&["summary", "--cycles", "0"], None, USAGE),
    (&["summary", "--cycles", "100001"], None, USAGE),
    (&["summary", "--cycles", "3", "--strict"], None, USAGE),
    (
        &["hops", "--cycles", "5"],
        Some(Meant::Hops {
            cycles: 5,
            frame: None,
        }),
        DONE,
    ),
    (
        &["hops", "--frame", "1000000", "--cycles", "100000"],
        Some(Meant::Hops {
            cycles: 100_000,
            frame: Some(1_000_000),
        }),
        DONE,
    ),
    (&["hops"], None, USAGE),
    (&["hops", "--cycles", "5", "--frame", "0"], None, USAGE),
    (
        &["hops", "--cycles", "5", "--frame", "1000001"],
        None,
        USAGE,
    ),
    (&["hops", "--cycles", "5", "--frame"], None, USAGE),
    (&["hops", "--cycles", "5", "--stream"], None, USAGE),
    (
        &["hops", "--cycles", "5", "--stream", "x", "--stream", "y"],
        None,
        USAGE,
    ),
    (&["hops", "--cycles", "100001"], None, USAGE),
    (&["run", "--cycles", "5", "--frame", "1"], None, USAGE),
];

/// The same of options that few commands have, and of words that no command has.
const MORE_CASES: &[(&[&str], Option<Meant>, u8)] = &[
    (&["plan"], Some(FIRST_GOOD), DONE),
    (&["plan", "--table"], Some(AS_TABLE), DONE),
    (&["plan", "--tries", "50"], Some(FIRST_GOOD), DONE),
    (
        &["plan", "--best", "--tries=0", "--verbose"],
        Some(BEST_OF_NO_TRIES),
        DONE,
    ),
    (&["plan", "--tries", "1000"], Some(OF_MOST_TRIES), DONE),
    (&["plan", "--tries", "1001"], None, USAGE),
    (&["plan", "--tries", "-1"], None, USAGE),
    (&["plan", "--tries", "many"], None, USAGE),
    (&["plan", "--tries"], None, USAGE),
    (&["plan", "--tries", "5", "--tries", "5"], None, USAGE),
    (&["plan", "--best=true"], None, USAGE),
    (&["plan", "--verbose", "--verbose"], None, USAGE),
    (&["plan", "--without"], None, USAGE),
    (&["plan", "--without", "a"], None, USAGE),
    (&["load", "--verbose"], None, USAGE),
    (&["load", "--tries", "5"], None, USAGE),
    (&["latency", "--best"], None, USAGE),
    (&["load", "--without", "a>b"], None, USAGE),
    // what streams hold of links is shown by `load` only
    (
        &["load", "--streams"],
        Some(Meant::Load { streams: true }),
        DONE,
    ),
    (&["load", "--streams", "--streams"], None, USAGE),
    (&["latency", "--streams"], None, USAGE),
    (&["hops", "--cycles", "5", "--streams"], None, USAGE),
    // stream gates are those of `compile`
    (
        &["compile", "--edge-gates"],
        Some(Meant::CompileEdges),
        DONE,
    ),
    (
        &["compile", "--format", "list", "--edge-gates"],
        Some(Meant::CompileEdges),
        DONE,
    ),
    (&["compile", "--edge-gates=true"], None, USAGE),
    (&["compile", "--edge-gates", "--bridge", "a"], None, USAGE),
    (&["load", "--edge-gates"], None, USAGE),
    // a letter or a word silences `diff`
    (&["diff"], Some(Meant::Diff { quiet: false }), DONE),
    (&["diff", "-q"], Some(Meant::Diff { quiet: true }), DONE),
    (
        &["diff", "--quiet"],
        Some(Meant::Diff { quiet: true }),
        DONE,
    ),
    (&["diff", "-q", "--quiet"], None, USAGE),
    (&["diff", "-qq"], None, USAGE),
    (&["diff", "--cycles", "5"], None, USAGE),
    (&["load", "-q"], None, USAGE),
    (&["plan", "--cycle"], None, USAGE),
    (&["plan", "--cycle", "9999"], None, USAGE),
    (&["plan", "--cycle", "10000..20000/0"], None, USAGE),
    (&["plan", "--cycles", "5"], None, USAGE),
    (&["gate", "--until", "5"], None, USAGE),
    (&[""], None, USAGE),
    (&["--help"], None, DONE),
];

/// Whether the words mean this job, or end with this status.
fn is_read(alloc: Global, words: &[&str], meant: &Option<Meant>, status: u8) -> bool {
    match read_words(alloc, words) {
        Ok(found) => match *meant {
            Some(ref meant) => found == job_of(alloc, meant),
            None => false,
        },
        Err(stop) => meant.is_none() && stop.status == status,
    }
}

#[test]
fn words_mean_a_job_or_are_misuse(rt: HostRuntime) {
    for (words, meant, status) in CASES {
        assert!(rt; is_read(rt.alloc(), words, meant, *status));
    }
}

#[test]
fn words_of_few_commands_mean_a_job_or_are_misuse(rt: HostRuntime) {
    for (words, meant, status) in MORE_CASES {
        assert!(rt; is_read(rt.alloc(), words, meant, *status));
    }
}

/// Whether the words mean `hops` for the frames of this stream.
fn is_of_stream(alloc: Global, words: &[&str], name: &str) -> bool {
    match read_words(alloc, words) {
        Ok(
            Job::Hops {
                cycles: 5,
                stream: Some(stream),
                frame: None,
            },
        ) => stream.as_str() == name,
        _ => false,
    }
}

#[test]
fn hops_are_of_a_stream_of_any_name(rt: HostRuntime) {
    let alloc = rt.alloc();
    assert!(rt;
        is_of_stream(
            alloc,
            &["hops", "--cycles", "5", "--stream", "mic-l"],
            "mic-l"
        )
    );
    assert!(rt; is_of_stream(alloc, &["hops", "--stream=", "--cycles", "5"], ""));
    assert!(rt; is_of_stream(alloc, &["hops", "--stream=-x", "--cycles=5"], "-x"));
}

/// Whether a format is that of the variables of the bridge with this name.
fn is_env_of(format: &Format, name: &str) -> bool {
    match *format {
        Format::Env { ref bridge } => bridge.as_str() == name,
        _ => false,
    }
}

/// Whether a job writes the variables of the bridge with this name.
fn writes_env_of(job: &Job, name: &str) -> bool {
    match *job {
        Job::Compile { ref format, .. } => is_env_of(format, name),
        _ => false,
    }
}

/// Whether the words mean such a job.
fn is_of_bridge(alloc: Global, words: &[&str], name: &str) -> bool {
    match read_words(alloc, words) {
        Ok(job) => writes_env_of(&job, name),
        Err(_) => false,
    }
}

#[test]
fn variables_are_of_a_bridge(rt: HostRuntime) {
    let alloc = rt.alloc();
    assert!(rt;
        is_of_bridge(
            alloc,
            &["compile", "--format", "env", "--bridge", "stage"],
            "stage"
        )
    );
    assert!(rt; is_of_bridge(alloc, &["compile", "--bridge=-x", "--format=env"], "-x"));
}

/// Words that clap accepts and that mean no job, and the text of their line.
const MISTAKES: &[(&[&str], &str)] = &[
    (
        &["plan", "--cycle", "125us"],
        "cqf: words: --cycle 125us isn't N or FROM..TO/STEP: cycle times of 10000 to 10000000 ns, FROM no greater than TO, \
            at most 1000 in all\n",
    ),
    (
        &["plan", "--without", "a", "--cycle", "125us"],
        "cqf: words: --without a isn't a link: 'FROM>TO' in quotes, with the names of its ends\n",
    ),
    (
        &["plan", "--without=a>b", "--without", "A>b", "--without=>"],
        "cqf: words: --without A>b isn't a link: 'FROM>TO' in quotes, with the names of its ends\n",
    ),
    (
        &["port", "--until", "5", "--rate", "20"],
        "cqf: words: --rate 20 isn't a rate: 10, 100, 1000, 2500, 5000, 10000, 25000, 40000 or 100000 (Mb/s)\n",
    ),
    (
        &["compile", "--format", "TC"],
        "cqf: words: --format TC isn't a format: list, tc, env or json\n",
    ),
    (
        &["compile", "--format", "env"],
        "cqf: words: --format env needs a bridge: --bridge NAME\n",
    ),
    (
        &["compile", "--bridge", "a", "--software"],
        "cqf: words: --bridge is only for --format env\n",
    ),
    (
        &["compile", "--bridge", "A", "--format", "env"],
        "cqf: words: --bridge A isn't a name: 1 to 32 characters, each a to z, 0 to 9, - or _\n",
    ),
    (
        &["compile", "--bridge", "a", "--software", "--format", "env"],
        "cqf: words: --software is only for --format tc\n",
    ),
];

/// Whether the words end with status 2 and this line.
fn is_written(alloc: Global, words: &[&str], line: &str) -> bool {
    match read_words(alloc, words) {
        Ok(_) => false,
        Err(stop) => stop.status == USAGE && stop.text.as_slice() == line.as_bytes(),
    }
}

#[test]
fn mistakes_say_what_is_wanted(rt: HostRuntime) {
    for (words, line) in MISTAKES {
        assert!(rt; is_written(rt.alloc(), words, line));
    }
}
