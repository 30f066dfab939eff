//! Notices of the end at each of several ports.
ghost use Rattle.std.specs.Prelude.{◌≡◌, ◌<◌, All, length};
ghost use Rattle.cqf_worker_loops.specs.Stops.{AreStopped};
ghost use Rattle.cqf_worker_loops.specs.PipeRule.{most_items};

use crate::PipeIn;
use crate::carried::Carried;
use crate::link_ends::LinkEnd;
use std::sync::Wait;

/// Puts a `Stop` once at each of the ports: no more items follow. It skips a port if the other end of its pipe is gone. At each port fewer
/// than 1,000,000 items were put before. It waits while a pipe is full, and allocates no memory.
pub fn stop_each<T: Drop, R: Wait>(rt: &R, ports: &mut [LinkEnd<PipeIn<Carried<T>>>])
    requires room { All (λ port. length port.pipe.items < most_items) ports.old }
    ensures count { length ports.new ≡ length ports.old }
    ensures stopped { AreStopped ports.old ports.new }
{
    for index in 0..ports.len() {
        match ports[index].pipe.put(rt, Carried::Stop) {
            Ok(()) => {}
            Err(_) => {}
        }
    }
}
