//! Pipes, with values computed by hand.
ghost use Rattle.std.specs.Prelude.{◌≡◌, ◌≤◌, length};

use cqf_worker_loops::{PipeIn, PipeOut, pipe};
use std::alloc::Global;
use std::collections::VecDeque;
use std::sync::Wait;
use std::sync::atomic::{AtomicU64, Ordering};
use std::thread::{Threads, join};

/// Returns whether the items 1, 2 and 3 go in.
fn puts_three<R: Wait>(rt: &R, into: &mut PipeIn<u32>) -> bool
    requires { length into.old.items ≡ 0 }
    ensures { into.new.pipe ≡ into.old.pipe }
{
    into.put(rt, 1).is_ok() && into.put(rt, 2).is_ok() && into.put(rt, 3).is_ok()
}

/// Returns whether 1 and then 2 come out.
fn takes_two<R: Wait>(rt: &R, out: &mut PipeOut<u32>) -> bool
    ensures { out.new.pipe ≡ out.old.pipe }
{
    out.take(rt) == Some(1) && out.take(rt) == Some(2)
}

/// Returns whether three items go in, two come out in that order, and one is left.
fn one_of_three_is_left<R: Wait>(rt: &R, alloc: Global) -> bool {
    match pipe::<u32>(alloc) {
        Ok((mut into, mut out)) => {
            let put = puts_three(rt, &mut into);
            let taken = takes_two(rt, &mut out);
            let left = into.close(out);
            put && taken && left == 1
        }
        Err(_) => false,
    }
}

/// Returns whether an item comes back if the other end is gone.
fn comes_back<R: Wait>(rt: &R, alloc: Global) -> bool {
    match pipe::<u32>(alloc) {
        Ok((mut into, out)) => {
            drop(out);
            into.put(rt, 7) == Err(7)
        }
        Err(_) => false,
    }
}

/// Returns whether an item comes out although the other end is gone, and then none.
fn comes_out<R: Wait>(rt: &R, alloc: Global) -> bool {
    match pipe::<u32>(alloc) {
        Ok((mut into, mut out)) => {
            let put = into.put(rt, 5).is_ok();
            drop(into);
            let first = out.take(rt);
            let second = out.take(rt);
            put && first == Some(5) && second == None
        }
        Err(_) => false,
    }
}

#[test]
fn pipe_3(rt: HostRuntime) {
    assert!(rt; one_of_three_is_left(&rt, rt.alloc()));
    assert!(rt; comes_back(&rt, rt.alloc()));
    assert!(rt; comes_out(&rt, rt.alloc()));
}

/// Returns whether 2 and 3 go in together after 1, and then 4.
fn puts_three_at_once<R: Wait>(rt: &R, alloc: Global, into: &mut PipeIn<u32>) -> bool
    requires { length into.old.items ≡ 0 }
    ensures { into.new.pipe ≡ into.old.pipe }
{
    let mut following = VecDeque::new(alloc);
    if following.push_back(2).is_err() || following.push_back(3).is_err() || following.len() > 2 {
        return false;
    }
    into.put_with(rt, 1, following).is_ok() && into.put(rt, 4).is_ok()
}

/// Returns whether items that were put at once, and one after them, come out one by one and in order, and those left are counted.
fn come_one_by_one<R: Wait>(rt: &R, alloc: Global) -> bool {
    match pipe::<u32>(alloc) {
        Ok((mut into, mut out)) => {
            let put = puts_three_at_once(rt, alloc, &mut into);
            let taken = takes_two(rt, &mut out);
            let left = into.close(out);
            put && taken && left == 2
        }
        Err(_) => false,
    }
}

/// Returns whether all of them come out although the other end is gone, and then none.
fn come_to_the_last<R: Wait>(rt: &R, alloc: Global) -> bool {
    match pipe::<u32>(alloc) {
        Ok((mut into, mut out)) => {
            let put = puts_three_at_once(rt, alloc, &mut into);
            drop(into);
            let first = takes_two(rt, &mut out);
            let third = out.take(rt);
            let last = out.take(rt);
            put && first && third == Some(3) && last == Some(4) && out.take(rt).is_none()
        }
        Err(_) => false,
    }
}

/// Returns whether items that were put at once come back if the other end is gone.
fn come_back_together<R: Wait>(rt: &R, alloc: Global) -> bool {
    match pipe::<u32>(alloc) {
        Ok((mut into, out)) => {
            drop(out);
            let mut following = VecDeque::new(alloc);
            if following.push_back(8).is_err() || following.len() > 1 {
                return false;
            }
            match into.put_with(rt, 7, following) {
                Ok(()) => false,
                Err((first, others)) => {
                    first == 7 && others.len() == 1 && others.get(0) == Some(&8)
                }
            }
        }
        Err(_) => false,
    }
}

#[test]
fn items_go_together(rt: HostRuntime) {
    assert!(rt; come_one_by_one(&rt, rt.alloc()));
    assert!(rt; come_to_the_last(&rt, rt.alloc()));
    assert!(rt; come_back_together(&rt, rt.alloc()));
}

/// Returns whether the numbers from 0 to `count` - 1 go in.
fn puts<R: Wait>(rt: &R, into: &mut PipeIn<u32>, count: u32) -> bool
    requires few { count ≤ 1000 }
    requires first { length into.old.items ≡ 0 }
    ensures { into.new.pipe ≡ into.old.pipe }
{
    for number in 0..count {
        if into.put(rt, number).is_err() {
            return false;
        }
    }
    true
}

/// Returns whether the numbers from 0 to `count` - 1 come out.
fn takes<R: Wait>(rt: &R, out: &mut PipeOut<u32>, count: u32) -> bool {
    for number in 0..count {
        if out.take(rt) != Some(number) {
            return false;
        }
    }
    true
}

/// Returns whether the numbers 0 to 99 go in.
fn puts_all<R: Wait>(rt: &R, mut into: PipeIn<u32>) -> bool
    requires { length into.items ≡ 0 }
{
    puts(rt, &mut into, 100)
}

/// Returns whether the numbers 0 to 99 come out, and then none.
fn takes_all<R: Wait>(rt: &R, mut out: PipeOut<u32>) -> bool {
    takes(rt, &mut out, 100) && out.take(rt) == None
}

/// Returns whether a hundred numbers cross from one thread to another in order.
fn crosses<R: Threads + Wait + Sync>(rt: &R, alloc: Global) -> bool {
    match pipe::<u32>(alloc) {
        Ok((into, out)) => {
            let (put, taken) = join(
                rt,
                move || -> bool
                    requires { length into.items ≡ 0 }
                { puts_all(rt, into) },
                move || takes_all(rt, out),
            );
            put && taken
        }
        Err(_) => false,
    }
}

#[test]
fn a_hundred_numbers_cross_in_order(rt: HostRuntime) {
    assert!(rt; crosses(&rt, rt.alloc()));
}

/// Returns whether four items go in while none comes out.
fn four_wait<R: Wait>(rt: &R, alloc: Global) -> bool {
    match pipe::<u32>(alloc) {
        Ok((mut into, out)) => {
            let put = puts(rt, &mut into, 4);
            put && into.close(out) == 4
        }
        Err(_) => false,
    }
}

/// Returns whether five items go in. The flag goes up after the fifth.
fn puts_five<R: Wait>(rt: &R, mut into: PipeIn<u32>, flag: &AtomicU64) -> bool
    requires { length into.items ≡ 0 }
{
    let put = puts(rt, &mut into, 5);
    flag.store(1, Ordering::SeqCst);
    put
}

/// Returns whether the flag stays down while none of the items comes out, and then all of them do.
fn takes_five<R: Wait>(rt: &R, mut out: PipeOut<u32>, flag: &AtomicU64) -> bool {
    for _read in 0..100_000 {
        if flag.load(Ordering::SeqCst) != 0 {
            return false;
        }
    }
    takes(rt, &mut out, 5)
}

/// Returns whether a fifth item waits until one has come out.
fn fifth_waits<R: Threads + Wait + Sync>(rt: &R, alloc: Global) -> bool {
    let flag = AtomicU64::new(0);
    match pipe::<u32>(alloc) {
        Ok((into, out)) => {
            let (put, taken) = join(
                rt,
                || -> bool
                    requires { length into.items ≡ 0 }
                { puts_five(rt, into, &flag) },
                || takes_five(rt, out, &flag),
            );
            put && taken && flag.load(Ordering::SeqCst) == 1
        }
        Err(_) => false,
    }
}

#[test]
fn four_items_wait_and_no_fifth(rt: HostRuntime) {
    assert!(rt; four_wait(&rt, rt.alloc()));
    assert!(rt; fifth_waits(&rt, rt.alloc()));
}
