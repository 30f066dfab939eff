//! Laws about the end of a run: for which words nothing waits, and the causes of status 4 if reads never fail.
ghost use Rattle.cqf_output.specs.Kinds.{MemoryAlone, NoKind};
ghost use Rattle.cqf_program_engine.specs.Run.{FaultIsOfThreads, FaultIsOfThreadsOrOutput, OnlyThreadsAreLeft};

use crate::sources::Source;
use cqf_output::Sink;

/// Law: if the words mean a job other than a run on threads, no run on threads is left to be made, so
/// `run_unless_threaded` returns a status. The body of `engine` then returns that at once; no clause says so.
pub fn engine_ends()
    ensures { OnlyThreadsAreLeft }
{}

/// Law: if reads never fail and the output refuses nothing, a run that ends with status 4 was one on threads that
/// failed.
pub fn fault_is_of_threads<R: Source, O: Sink>()
    ensures { NoKind R.fails → NoKind O.refuses → FaultIsOfThreads R.fails O.refuses }
{}

/// Law: if the input is bytes in memory and the output is a list of bytes, a run that ends with status 4 was one on
/// threads that failed, or the list refused a write. The list refuses only if an allocation fails.
pub fn fault_in_memory_is_of_threads_or_memory()
    ensures fault { FaultIsOfThreadsOrOutput ⟦<&'static [u8] as Source>⟧.fails ⟦<Vec<u8> as Sink>⟧.refuses }
    ensures memory { MemoryAlone ⟦<Vec<u8> as Sink>⟧.refuses }
{}
