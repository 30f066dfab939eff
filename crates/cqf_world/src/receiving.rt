//! A bridge receives its cycle, and its page is posted.
ghost use Rattle.std.specs.Prelude.{◌≡◌, ◌<◌, IfOk, OnErr, OnOk};
ghost use Rattle.cqf_book.specs.Pages.{IsNextPage, with_page};
ghost use Rattle.cqf_world.specs.Parts.{IsNextToPost, IsPageOf, MayReceiveItsCycle, PostsOut, ReceivesItsCycle};
ghost use Rattle.cqf_model.specs.Limits.{most_cycles};

use crate::parts::WorldBridge;
use cqf_admission::Table;
use cqf_book::{PageFault, Pages};
use cqf_bridge::{BridgeFault, page_with};
use cqf_model::{Dropped, Page};
use cqf_units::{Cycle, Memory};
use std::alloc::{AllocError, Global};
use std::mem::replace;

/// Receives the cycle of a bridge, with its offers of the cycle, a table and the batches that it has taken. Returns the frames dropped at
/// the bridge.
fn receive_cycle(
    alloc: Global,
    bridge_driven: &mut WorldBridge,
    table: &Table,
) -> Result<Vec<Dropped>, Memory>
    requires may { MayReceiveItsCycle bridge_driven.old table.now }
    ensures ok { IfOk result (λ drops. ReceivesItsCycle bridge_driven.old bridge_driven.new table.now drops.items) }
    ensures given { bridge_driven.new.given ≡ bridge_driven.old.given }
    ensures sent { bridge_driven.new.sent ≡ bridge_driven.old.sent }
{
    let cycle = Cycle(bridge_driven.posted);
    let offers = bridge_driven.agenda.offers(cycle);
    match bridge_driven.bridge.receive(
        alloc,
        cycle,
        table,
        bridge_driven.taken.as_slice(),
        offers,
    ) {
        Ok(drops) => Ok(drops),
        Err(fault) => match fault {
            BridgeFault::Memory => Err(AllocError),
            _ => unreachable!(),
        },
    }
}

/// Returns the page of the cycle that a bridge has received: the starts that it has kept, its background frames, and the drops.
fn make_page(
    alloc: Global,
    bridge_driven: &mut WorldBridge,
    drops: Vec<Dropped>,
) -> Result<Page, Memory>
    ensures ok { IfOk result (λ page. IsPageOf bridge_driven.old page drops.items) }
    ensures same { bridge_driven.new ≡ record bridge_driven.old { starts = bridge_driven.new.starts } }
{
    let starts = replace(&mut bridge_driven.starts, Vec::new(alloc));
    page_with(
        alloc,
        &bridge_driven.bridge,
        Cycle(bridge_driven.posted),
        starts,
        drops,
    )
}

/// Posts the next page of its bridge.
fn put_page(pages: &mut Pages, page: Page) -> Result<(), Memory>
    requires { IsNextPage pages.old page }
    ensures ok { OnOk result (pages.new ≡ with_page pages.old page) }
    ensures err { OnErr result (pages.new ≡ pages.old) }
{
    match pages.post(page) {
        Ok(()) => Ok(()),
        Err((fault, _page)) => match fault {
            PageFault::Memory => Err(AllocError),
            _ => unreachable!(),
        },
    }
}

/// Receives the cycle of a bridge, and posts its page. The bridge is then in its next cycle, and has taken no batch of it yet.
pub(crate) fn post_page(
    alloc: Global,
    bridge_driven: &mut WorldBridge,
    table: &Table,
    pages: &mut Pages,
) -> Result<(), Memory>
    requires early { bridge_driven.old.posted < most_cycles }
    requires may { MayReceiveItsCycle bridge_driven.old table.now }
    requires next { IsNextToPost pages.old bridge_driven.old }
    ensures ok { OnOk result (PostsOut bridge_driven.old bridge_driven.new table.now pages.old pages.new) }
    ensures err_given { OnErr result (bridge_driven.new.given ≡ bridge_driven.old.given) }
    ensures err_sent { OnErr result (bridge_driven.new.sent ≡ bridge_driven.old.sent) }
    ensures err_pages { OnErr result (pages.new ≡ pages.old) }
{
    let drops = receive_cycle(alloc, bridge_driven, table)?;
    let page = make_page(alloc, bridge_driven, drops)?;
    put_page(pages, page)?;
    bridge_driven.taken.clear();
    bridge_driven.posted += 1;
    Ok(())
}
