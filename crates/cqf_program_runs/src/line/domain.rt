//! The domain of the line, as a text.
ghost use Rattle.std.specs.Prelude.{◌≡◌, IfOk};
ghost use Rattle.cqf_program_runs.specs.Line.{line_domain};

use cqf_topology::{Domain, DomainFault};
use cqf_units::Memory;
use std::alloc::{AllocError, Global};

/// The domain of the line: bridge `a`, station `s`, and the link from one to the other.
const LINE_TEXT: &[u8] = b"cycle = 125000
guard = 5000
bridges = [\"a\"]
stations = [\"s\"]

[[links]]
from = \"a\"
to = \"s\"
rate = 1000
delay = 500
";

/// Returns the domain of the line: bridge `a`, station `s`, the link from one to the other at 1,000 Mb/s with a delay
/// of 500 ns, a cycle time of 125,000 ns and a guard band of 5,000 ns. Returns `Memory` if an allocation fails. The
/// text is fixed, so nothing else can be wrong with it.
pub(crate) fn domain_of_line(alloc: Global) -> Result<Domain, Memory>
    ensures { IfOk result (λ domain. domain ≡ line_domain) }
{
    match Domain::read(alloc, LINE_TEXT) {
        Ok(domain) => Ok(domain),
        Err(fault) => match fault {
            DomainFault::Memory => Err(AllocError),
            // the text is that of a domain
            _ => unreachable!(),
        },
    }
}
