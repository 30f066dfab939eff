//! Reading of tables and scripts.
use crate::{Reported, X, domain_of, trial};
use cqf_admission::{Call, ScriptFault, read_script};
use cqf_model::{Arrival, Background, Offer};
use cqf_report::{OfferFault, TableFault, read_arrivals, read_background, read_offers};
use cqf_test_fixtures::{line, one_link, request};
use cqf_topology::{Domain, Request};
use cqf_units::Nanos;
use std::alloc::Global;

/// Whether the one arrival was read.
fn is_arrival(read: &Result<Vec<Arrival>, TableFault>) -> bool {
    let wanted = Arrival {
        at: Nanos(10),
        class: 6,
        octets: 64,
        frame: 1,
    };
    match read {
        Ok(arrivals) => arrivals.as_slice() == [wanted].as_slice(),
        Err(_) => false,
    }
}

pub(crate) fn arrivals_reported(alloc: Global) -> Option<Reported> {
    let text = b"at,class,octets,frame\n10,6,64,1\n".as_slice();
    Some(trial!(
        alloc,
        read_arrivals(alloc, text),
        Err(TableFault::Memory),
        true,
        |answer| is_arrival(&answer)
    ))
}

/// Whether an offer has these values.
fn is_offer(offer: &Offer, at: u64, bridge: u16, octets: u32) -> bool {
    offer.at == Nanos(at)
        && offer.bridge == bridge
        && offer.octets == octets
        && offer.stream.as_str() == "x"
}

/// Whether the four offers were read.
fn are_offers(read: &Result<Vec<Offer>, OfferFault>) -> bool {
    match read {
        Ok(offers) => match offers.as_slice() {
            [one, two, three, four] => {
                is_offer(one, 0, 0, 64)
                    && is_offer(two, 0, 1, 64)
                    && is_offer(three, 125_000, 0, 64)
                    && is_offer(four, 500_000, 0, 64)
            }
            _ => false,
        },
        Err(_) => false,
    }
}

/// Tries to read the offers for a domain.
fn offers_read(alloc: Global, domain: &Domain) -> Reported {
    let text =
        b"at,bridge,stream,octets\n0,a,x,64\n0,b,x,64\n125000,a,x,64\n500000,a,x,64\n".as_slice();
    trial!(
        alloc,
        read_offers(alloc, domain, text),
        Err(OfferFault::Memory),
        true,
        |answer| are_offers(&answer)
    )
}

pub(crate) fn offers_reported(alloc: Global) -> Option<Reported> {
    let domain = domain_of(alloc, line())?;
    Some(offers_read(alloc, &domain))
}

/// Whether the one background frame was read.
fn is_background(read: &Result<Vec<Background>, OfferFault>) -> bool {
    let wanted = Background {
        at: Nanos(120_000),
        link: 0,
        class: 0,
        octets: 1522,
    };
    match read {
        Ok(frames) => frames.as_slice() == [wanted].as_slice(),
        Err(_) => false,
    }
}

/// Tries to read the background frame for a domain.
fn background_read(alloc: Global, domain: &Domain) -> Reported {
    let text = b"at,from,to,class,octets\n120000,a,s,0,1522\n".as_slice();
    trial!(
        alloc,
        read_background(alloc, domain, text),
        Err(OfferFault::Memory),
        true,
        |answer| is_background(&answer)
    )
}

pub(crate) fn background_reported(alloc: Global) -> Option<Reported> {
    let domain = domain_of(alloc, one_link())?;
    Some(background_read(alloc, &domain))
}

/// Whether a call is to admit `x`.
fn admits_x(call: &(u16, Call)) -> bool {
    match &call.1 {
        Call::Admit(wanted) => call.0 == 0 && wanted.name.as_str() == "x",
        _ => false,
    }
}

/// Whether a call is to withdraw `x`.
fn withdraws_x(call: &(u16, Call)) -> bool {
    match &call.1 {
        Call::Withdraw(name) => call.0 == 0 && name.as_str() == "x",
        _ => false,
    }
}

/// Whether the calls are to admit `x`, to seal and to withdraw `x`.
fn are_calls(read: &Result<Vec<(u16, Call)>, ScriptFault>) -> bool {
    match read {
        Ok(calls) => match calls.as_slice() {
            [admit, seal, withdraw] => {
                admits_x(admit) && matches!(seal, (1, Call::Seal)) && withdraws_x(withdraw)
            }
            _ => false,
        },
        Err(_) => false,
    }
}

/// Tries to read the script with these requests.
fn script_read(alloc: Global, requests: &[Request]) -> Reported {
    let text = b"0 admit x\nseal\n0 withdraw x\n".as_slice();
    trial!(
        alloc,
        read_script(alloc, text, requests, 6),
        Err(ScriptFault::Memory),
        true,
        |answer| are_calls(&answer)
    )
}

pub(crate) fn script_reported(alloc: Global) -> Option<Reported> {
    let wanted = request(alloc, &X).ok()?;
    Some(script_read(alloc, &[wanted]))
}
