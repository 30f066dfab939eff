//! The input of the line other than its offers: its stream, which is admitted before cycle 0.
ghost use Rattle.std.specs.Prelude.{◌≡◌, ◌∷◌, [], IfOk, codes, map, string_bytes};
ghost use Rattle.cqf_admission.specs.Asking.{asked_paced};
ghost use Rattle.cqf_program_runs.specs.Line.{line_asked, line_domain, line_scenario};
ghost use Rattle.cqf_program_scenario.specs.Closing.{scenario_given};
ghost use Rattle.cqf_program_scenario.specs.Logged.{HasOrders};

use cqf_admission::{Ordered, What};
use cqf_model::Offer;
use cqf_program_scenario::RunInput;
use cqf_topology::{Domain, PacedRequest};
use cqf_units::{Memory, Octets};
use std::alloc::Global;

/// The reservation of the stream, in octets per cycle.
const RESERVED: Octets = Octets(1_500);

/// The seat that admits the stream.
const ADMINISTRATOR: u16 = 0;

/// The seat that closes the cycles.
const SEALER: u16 = 1;

/// Returns the path of the stream: its bridge, followed by its listener's station.
fn path_of_line(alloc: Global) -> Result<Vec<String>, Memory>
    ensures { IfOk result (λ path. map string_bytes path.items ≡ codes "a" ∷ codes "s" ∷ []) }
{
    let mut path = Vec::with_capacity(alloc, 2)?;
    path.push(String::from_str(alloc, "a")?)?;
    path.push(String::from_str(alloc, "s")?)?;
    Ok(path)
}

/// Returns the request for the stream `x`.
fn request_of_line(alloc: Global) -> Result<PacedRequest, Memory>
    ensures { IfOk result (λ request. asked_paced request ≡ line_asked) }
{
    let mut paths = Vec::with_capacity(alloc, 1)?;
    paths.push(path_of_line(alloc)?)?;
    Ok(PacedRequest {
        name: String::from_str(alloc, "x")?,
        octets: RESERVED.0,
        every: 1,
        phase: 0,
        paths,
    })
}

/// Returns the scenario of these offers: the stream is admitted before cycle 0, and there are no background frames.
pub(crate) fn given_to_line(
    alloc: Global,
    domain: Domain,
    offers: Vec<Offer>,
) -> Result<RunInput, Memory>
    requires { domain ≡ line_domain }
    ensures given { IfOk result (λ given. scenario_given given ≡ line_scenario offers.items) }
    ensures stand { IfOk result (λ given. HasOrders given) }
{
    let mut requests = Vec::with_capacity(alloc, 1)?;
    requests.push(request_of_line(alloc)?)?;
    let mut orders = Vec::with_capacity(alloc, 1)?;
    orders.push(Ordered {
        seat: ADMINISTRATOR,
        what: What::Admit(0),
    })?;
    Ok(RunInput {
        domain,
        requests,
        script: Vec::new(alloc),
        orders,
        sealer: SEALER,
        offers,
        background: Vec::new(alloc),
    })
}
