//! The sums of streams' frames by link, from what each link carries in each cycle.
ghost use Rattle.std.specs.Prelude.{◌≡◌, IfOk, fold, length, max};
ghost use Rattle.cqf_laws_coverage.specs.Columns.{frames_by, octets_by};
ghost use Rattle.cqf_report.specs.Columns.{columns_text};

use crate::links::{FrameSums, put_header, put_sums, sum_of};
use cqf_laws_coverage::Column;
use cqf_output::{Buffer, CheckedSink, Writer, written_text};
use cqf_topology::Domain;
use cqf_units::Memory;
use std::alloc::Global;
use std::thread::Threads;

/// Returns the greatest of the listed octets, or 0 if none are listed.
fn most_of(listed: &[u32]) -> u32
    ensures { result ≡ fold max 0 listed.now }
{
    let mut most = 0;
    for octets in listed {
        most = most.max(*octets);
    }
    most
}

/// Returns the text of the sums by link that [`write_links`](crate::write_links) writes for a book, given what each of the domain's links
/// carries, by number. Returns `Memory` if an allocation fails.
pub fn write_columns(
    rt: &(impl Threads + Sync),
    alloc: Global,
    domain: &Domain,
    columns: &[Column],
) -> Result<Vec<u8>, Memory>
    requires { length columns.now ≡ length domain.now.links }
    ensures { IfOk result (λ text. text.items ≡ columns_text domain.now (frames_by columns.now) (octets_by columns.now)) }
{
    let mut reported = CheckedSink::new(Vec::new(alloc));
    let mut writer = Writer::new(&mut reported, Buffer::new(alloc)?);
    put_header(&mut writer);
    for link in 0..domain.links() {
        let column = &columns[usize::from(link)];
        let listed = column.octets.as_slice();
        let sums = FrameSums {
            frames: u128::from(column.frames),
            octets: sum_of(rt, listed),
        };
        put_sums(&mut writer, domain, link, sums, u128::from(most_of(listed)));
    }
    let _written = writer.close();
    written_text(reported)
}
