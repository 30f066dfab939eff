//! Queues of frames: each has the frames that wait for a link's next cycle.
ghost use Rattle.std.specs.Prelude.{◌≡◌, ◌+◌, ◌^◌, ◌≤◌, ◌<◌, All, length};
ghost use Rattle.cqf_instants.specs.Queues.{AddsToQueue, HasSpace, hops_to, key_in_cycle, only_on};

/// A hop of a stream's tree, as a frame takes it.
#[derive(Clone, Copy, Debug)]
pub struct LaidHop {
    /// The link's number.
    pub link: u16,
    /// The index of the first hop after this one, among all hops; the hops after this one are contiguous.
    pub next: u32,
    /// The number of hops after this one.
    pub many: u32,
}

/// A frame that waits in a queue for its link's next cycle.
#[derive(Clone, Copy, Debug)]
pub struct Waiting {
    /// The instant at which it has fully arrived at the bridge, counted from the cycle's first instant, in nanoseconds.
    pub at: u32,
    /// The hop by which it goes on.
    pub hop: u32,
    pub frame: u32,
    pub octets: u32,
    /// The number of the link by which it came; 4096 for an offer.
    pub source: u16,
}

/// Returns the sort key of a frame in its queue.
pub(crate) fn key(frame: &Waiting) -> u128
    ensures { result ≡ key_in_cycle frame.now }
{
    (u128::from(frame.at) * 8192 + u128::from(frame.source)) * 16_777_216 + u128::from(frame.frame)
}

/// Puts a frame into the queue of a link, which has room for it.
pub(crate) fn put(queues: &mut Vec<Vec<Waiting>>, link: u16, frame: Waiting)
    requires is_link { link < length queues.old.items }
    requires space { HasSpace queues.old.items (only_on link frame) }
    ensures { AddsToQueue queues.old.items queues.new.items (only_on link frame) }
{
    queues[usize::from(link)].push_reserved(frame);
}

/// Puts a frame into the queue of each of some contiguous hops. The queues have room for this.
pub(crate) fn pass_on(
    queues: &mut Vec<Vec<Waiting>>,
    branches: &[LaidHop],
    first: u32,
    many: u32,
    frame: Waiting,
)
    requires few { length branches.now < 2 ^ 32 }
    requires inside { first + many ≤ length branches.now }
    requires links { All (λ (b : LaidHop). b.link < length queues.old.items) branches.now }
    requires space { HasSpace queues.old.items (hops_to branches.now first many frame) }
    ensures { AddsToQueue queues.old.items queues.new.items (hops_to branches.now first many frame) }
{
    for k in 0..many {
        let hop = first + k;
        put(
            queues,
            branches[hop as usize].link,
            Waiting { hop, ..frame },
        );
    }
}
