//! Answers to jobs.
ghost use Rattle.std.specs.Prelude.{◌≡◌, false};
ghost use Rattle.cqf_program_engine.specs.Run.{IsWithin, is_threaded};

use crate::program::is_wanting;
use cqf_model::PROFILE;
use cqf_output::Stop;
use cqf_program_engine::answer;
use cqf_program_words::{Format, Job};
use cqf_refused_values::{Reported, mark, once, twice};
use cqf_units::Rate;
use std::alloc::Global;
use std::thread::Threads;

/// Whether this text is the answer.
fn is_text(given: &Result<Vec<u8>, Stop>, text: &str) -> bool {
    match given {
        Ok(bytes) => bytes.as_slice() == text.as_bytes(),
        Err(_) => false,
    }
}

/// Tries to answer a job.
fn answered(
    rt: &(impl Threads + Sync),
    alloc: Global,
    job: &Job,
    input: &str,
    text: &str,
) -> Reported
    requires within { IsWithin job.now }
    requires unthreaded { is_threaded job.now ≡ false }
{
    let input = input.as_bytes();
    mark(alloc);
    let first = answer(rt, alloc, PROFILE, job, input);
    mark(alloc);
    if is_wanting(&first) {
        return twice(true, is_text(&answer(rt, alloc, PROFILE, job, input), text));
    }
    once(is_text(&first, text))
}

pub(crate) fn port_reported(rt: &(impl Threads + Sync), alloc: Global) -> Reported {
    let job = Job::Port {
        until: 1_000_000,
        rate: Rate::Mb1000,
    };
    let input = "80 120000\n00 5000\n40 120000\n00 5000\n%%\nat,class,octets,frame\n10,6,64,1\n";
    let text = "class,frame,start,end\n6,1,125000,125576\n";
    answered(rt, alloc, &job, input, text)
}

pub(crate) fn line_reported(rt: &(impl Threads + Sync), alloc: Global) -> Reported {
    let job = Job::Line { cycles: 2 };
    let input = "at,bridge,stream,octets\n0,a,x,1000\n10,a,x,600\n20,a,x,500\n";
    let text = "what,cycle,where,frame,octets,detail\nstart,1,a>s,1,1000,125000\n\
        start,1,a>s,3,500,133160\ndrop,0,a,2,600,octets\n";
    answered(rt, alloc, &job, input, text)
}

/// One link, and a stream on it.
const ONE_LINK: &str = "cycle = 125000\nguard = 5000\nbridges = [\"a\"]\nstations = [\"s\"]\n\
    \n[[links]]\nfrom = \"a\"\nto = \"s\"\nrate = 1000\ndelay = 500\n\
    %%\n[[streams]]\nname = \"x\"\noctets = 1500\npath = [\"a\", \"s\"]\n";

pub(crate) fn compile_reported(rt: &(impl Threads + Sync), alloc: Global) -> Reported {
    let job = Job::Compile {
        format: Format::List,
        edge_gates: false,
    };
    let text = "link a>s\nBF 120000\n00 5000\n7F 120000\n00 5000\n\
        stream 0 x bridge a\nopen 6 125000 1500\nopen 7 125000 1500\n";
    answered(rt, alloc, &job, ONE_LINK, text)
}

/// The line, a stream along it, and a frame of it.
pub(crate) const ALONG: &str =
    "cycle = 125000\nguard = 5000\nbridges = [\"a\", \"b\", \"c\"]\nstations = [\"s\"]\n\
    \n[[links]]\nfrom = \"a\"\nto = \"b\"\nrate = 1000\ndelay = 500\n\
    \n[[links]]\nfrom = \"b\"\nto = \"c\"\nrate = 1000\ndelay = 500\n\
    \n[[links]]\nfrom = \"c\"\nto = \"s\"\nrate = 1000\ndelay = 500\n\
    %%\n[[streams]]\nname = \"x\"\noctets = 1500\npath = [\"a\", \"b\", \"c\", \"s\"]\n\
    %%\n0 admit x\n%%\nat,bridge,stream,octets\n0,a,x,64\n";

/// The output for that.
pub(crate) const REPORTED: &str =
    "0 admit x accepted 0 0\n1 seal\n1 seal\n1 seal\n1 seal\n1 seal\n%%\n\
    what,cycle,where,frame,octets,detail\n\
    start,1,a>b,1,64,125000\nstart,2,b>c,1,64,250000\nstart,3,c>s,1,64,375000\n";

pub(crate) fn run_reported(rt: &(impl Threads + Sync), alloc: Global) -> Reported {
    let job = Job::Run {
        cycles: 5,
        threads: false,
    };
    answered(rt, alloc, &job, ALONG, REPORTED)
}

pub(crate) fn report_reported(rt: &(impl Threads + Sync), alloc: Global) -> Reported {
    let job = Job::Report { cycles: 5 };
    let text = "link,frames,octets,most\na>b,1,64,64\nb>c,1,64,64\nc>s,1,64,64\n";
    answered(rt, alloc, &job, ALONG, text)
}
