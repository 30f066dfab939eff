//! The text of a small history's book, put while its starts are found; computed by hand.
ghost use Rattle.std.specs.Prelude.{◌≡◌, ◌≤◌, length};
ghost use Rattle.cqf_model.specs.Limits.{most_offers};
ghost use Rattle.cqf_laws_coverage.specs.Judged.{StandInOrder};
ghost use Rattle.cqf_model.specs.Run.{AreOffers};

use crate::administrations::{administered, judged};
use cqf_admission::Admission;
use cqf_instants::Pass;
use cqf_instants_run::pass_of_history;
use cqf_model::{Dropped, Offer, Reason, Started};
use cqf_output::{Buffer, CheckedSink, Writer};
use cqf_program_scenario::ExactBook;
use cqf_report::{offers_are_read_in_order, read_offers};
use cqf_test_fixtures::fork;
use cqf_topology::Domain;
use cqf_units::{Cycle, Nanos};
use std::alloc::Global;

/// A stream that branches at b.
const STREAM: &str = r#"streams = [
    { name = "x", octets = 1500, paths = [["a", "b", "c", "s"], ["a", "b", "t"]] },
]"#;

/// One offer of it.
const OFFERS: &str = "at,bridge,stream,octets\n0,a,x,1500\n";

/// The text of the book over four cycles, with a background frame and a drop that are given.
const TEXT: &str = "what,cycle,where,frame,octets,detail
start,1,a>b,1,1500,125000
start,2,b>c,1,1500,250000
start,2,b>t,1,1500,250000
start,3,c>s,1,1500,375000
background,0,c>s,7,64,5
drop,1,b,2,100,unknown
";

/// Returns what is put of a pass, with a background frame and a drop; nothing if an allocation fails.
fn reported_of(alloc: Global, domain: &Domain, pass: Pass, buffer: Buffer) -> Vec<u8>
    requires { pass.reported ≡ 0 }
{
    let frame = Started {
        cycle: Cycle(0),
        link: 0,
        frame: 7,
        octets: 64,
        start: Nanos(5),
    };
    let offer = Dropped {
        cycle: Cycle(1),
        bridge: 1,
        frame: 2,
        octets: 100,
        reason: Reason::Unknown,
    };
    let (mut background, mut drops) = (Vec::new(alloc), Vec::new(alloc));
    if background.push(frame).is_err() || drops.push(offer).is_err() {
        return Vec::new(alloc);
    }
    let mut reported = CheckedSink::new(Vec::new(alloc));
    let mut writer = Writer::new(&mut reported, buffer);
    ExactBook::new(pass, background, drops).put(&mut writer, domain);
    let _reported = writer.close();
    reported.into_writer()
}

/// Returns whether this text is put of a run over `cycles` cycles of an administration, with these offers.
fn reports(
    alloc: Global,
    admission: &Admission,
    offers: &[Offer],
    cycles: u32,
    wanted: &[u8],
) -> bool
    requires offers { AreOffers admission.now.domain offers.now }
    requires order { StandInOrder offers.now }
    requires few { length offers.now ≤ most_offers }
{
    let domain = admission.domain();
    let Ok((granted, covered)) = judged(alloc, admission, cycles, offers) else {
        return false;
    };
    let rows = granted.as_slice();
    let edge_verdicts = covered.as_slice();
    let Ok(buffer) = Buffer::new(alloc) else {
        return false;
    };
    match pass_of_history(alloc, domain, cycles, rows, offers, edge_verdicts) {
        Ok(pass) => reported_of(alloc, domain, pass, buffer).as_slice() == wanted,
        Err(_) => false,
    }
}

/// Returns whether the book of the stream's history has its text.
fn comes_out(alloc: Global, domain: &Domain) -> bool {
    offers_are_read_in_order();
    let Some(made) = administered(alloc, domain, STREAM, "0 admit x\n", 4) else {
        return false;
    };
    let admission = &made.admission;
    match read_offers(alloc, admission.domain(), OFFERS.as_bytes()) {
        Ok(offers) => reports(alloc, admission, offers.as_slice(), 4, TEXT.as_bytes()),
        Err(_) => false,
    }
}

/// The same over the line that branches.
fn comes_out_of_fork(alloc: Global) -> bool {
    match Domain::read(alloc, fork().as_bytes()) {
        Ok(domain) => comes_out(alloc, &domain),
        Err(_) => false,
    }
}

#[test]
fn book_is_put_cycle_by_cycle(rt: HostRuntime) {
    assert!(rt; comes_out_of_fork(rt.alloc()));
}
