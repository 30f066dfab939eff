//! Pages that a world has posted, compared with the expected ones.
use cqf_book::Pages;
use cqf_model::Page;
use cqf_test_fixtures::{Begun, Fell, are_begun, are_dropped};
use cqf_units::Cycle;

/// A page that isn't empty: its bridge and its cycle, and its content.
pub(crate) struct Written {
    pub(crate) bridge: u16,
    pub(crate) cycle: u32,
    pub(crate) starts: &'static [Begun],
    pub(crate) background: &'static [Begun],
    pub(crate) drops: &'static [Fell],
}

/// Returns whether a page is of the bridge and cycle, and has these starts and drops.
fn has(
    page: &Page,
    bridge: u16,
    cycle: u32,
    starts: &[Begun],
    background: &[Begun],
    drops: &[Fell],
) -> bool {
    page.bridge == bridge
        && page.cycle.0 == cycle
        && are_begun(page.starts.as_slice(), starts)
        && are_begun(page.background.as_slice(), background)
        && are_dropped(page.drops.as_slice(), drops)
}

/// Returns whether a page is the expected one of its bridge and cycle: the one that is listed, or else an empty one.
fn is_expected(page: &Page, bridge: u16, cycle: u32, written: &[Written]) -> bool {
    for other in written {
        if other.bridge == bridge && other.cycle == cycle {
            return has(
                page,
                bridge,
                cycle,
                other.starts,
                other.background,
                other.drops,
            );
        }
    }
    has(page, bridge, cycle, &[], &[], &[])
}

/// Returns whether the first `cycles` cycles of the first `bridges` bridges are posted, and no others, and their pages are those listed,
/// and else empty.
pub(crate) fn are_written(pages: &Pages, bridges: u16, cycles: u32, written: &[Written]) -> bool {
    for bridge in 0..bridges {
        for cycle in 0..cycles {
            match pages.page(bridge, Cycle(cycle)) {
                Some(page) => {
                    if !is_expected(page, bridge, cycle, written) {
                        return false;
                    }
                }
                None => return false,
            }
        }
    }
    pages.whole_cycles() == cycles
}
