//! A replica's two threads.

ghost use Rattle.std.specs.Prelude.{◌≡◌, IfOk, map};
ghost use Rattle.std.specs.List.{range_with_len};
ghost use Rattle.ep_base.specs.Quorums.{size};

use crate::run_fault::RunFault;
use crate::submission::Submission;
use ep_base::{ReplicaId, Size};
use ep_host::{LockHost, Start, Turn};
use std::alloc::{AllocError, Global};
use std::marker::{Send, Sync};
use std::sync::Wait;
use std::sync::atomic::{AtomicBool, Ordering};
use std::thread;
use std::thread::Threads;

/// What a replica's two threads share in a section.
#[derive(Drop)]
struct Lane {
    replica: ReplicaId,
    has_submitted: AtomicBool,
}

impl Lane {
    ghost use Rattle.std.specs.Prelude.{◌≡◌};

    fn new(replica: ReplicaId) -> Lane
        ensures { result.replica ≡ replica }
    {
        Lane {
            replica,
            has_submitted: AtomicBool::new(false),
        }
    }

    /// Has the replica do its tasks, in order.
    fn submit_all<S: Start, R: Wait>(
        &self,
        rt: &R,
        alloc: Global,
        host: &LockHost<S>,
        tasks: &[Submission],
    ) {
        for task in tasks {
            if task.replica == self.replica {
                task.run(rt, alloc, host);
            }
        }
        self.has_submitted.store(true, Ordering::SeqCst);
    }

    /// Pumps the replica, so often at most, until its tasks are done and a later pump is idle.
    fn pump_all<S: Start, R: Wait>(&self, rt: &R, host: &LockHost<S>, turns: u32) {
        for _ in 0..turns {
            let is_last = self.has_submitted.load(Ordering::SeqCst);
            if host.pump(rt, self.replica) != Ok(Turn::Moved) {
                if is_last {
                    return;
                }
                thread::yield_now();
            }
        }
    }
}

/// A lane for each replica of a cluster of this size.
fn lanes(alloc: Global, cluster: Size) -> Result<Vec<Lane>, AllocError>
    ensures { IfOk result (λ lanes. map (λ l. l.replica) lanes.items ≡ range_with_len 0 (size cluster)) }
{
    let mut lanes = Vec::new(alloc);
    for index in 0..cluster.count() {
        let replica = ReplicaId::new(index).unwrap();
        lanes.push(Lane::new(replica))?;
    }
    Ok(lanes)
}

/// Runs a section's tasks, in two threads for each lane. Answers whether all threads were started.
fn run_lanes<S: Start + Send + Sync, R: Threads + Wait + Sync>(
    rt: &R,
    host: &LockHost<S>,
    tasks: &Vec<Submission>,
    lanes: &[Lane],
    turns: u32,
) -> bool {
    let alloc = *tasks.allocator();
    let tasks = tasks.as_slice();
    thread::scope(thread::scope_env(), rt, |scope| {
        let mut is_started = true;
        for lane in lanes {
            is_started = is_started
                && scope
                    .spawn(move || lane.submit_all(rt, alloc, host, tasks))
                    .is_ok()
                && scope.spawn(move || lane.pump_all(rt, host, turns)).is_ok();
        }
        is_started
    })
}

/// Runs a section's tasks, in two threads for each replica.
pub(crate) fn run_threads<S: Start + Send + Sync, R: Threads + Wait + Sync>(
    rt: &R,
    host: &LockHost<S>,
    tasks: &Vec<Submission>,
    turns: u32,
) -> Result<(), RunFault> {
    let lanes = lanes(*tasks.allocator(), host.size())?;
    if run_lanes(rt, host, tasks, &lanes, turns) {
        Ok(())
    } else {
        Err(RunFault::NoThread)
    }
}
