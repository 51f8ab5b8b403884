//! Jobs that threads do side by side at what they share, each job by one thread.
ghost use Rattle.std.specs.Prelude.{◌≡◌, ℕ, ◌<◌, length, slice_index_or, All};
ghost use Rattle.std.specs.Thread.{IsSync};

use std::sync::Wait;
use std::thread;
use std::thread::Threads;

/// What several threads share that have a job each.
pub trait Bench {
    type Job;

    // Whether a job can be done here.
    ghost Fits: { Self → Self.Job → Type 0 };

    // What a job is, and what it is once it was done here.
    ghost Did: { Self → Self.Job → Self.Job → Type 0 };

    /// Does one job.
    fn do_one<R: Threads + Wait + Sync>(&self, rt: &R, job: &mut Self::Job)
        requires shared { IsSync R.row }
        requires fits { Fits self.now job.old }
        ensures { Did self.now job.old job.new };
}

/// Does each job at its place, in so many threads.
pub fn do_all<R: Threads + Wait + Sync, J: Send, B: Bench<Job = J> + Sync>(
    rt: &R,
    bench: &B,
    jobs: &mut [J],
    threads: usize,
)
    requires threads { 0 < threads }
    requires fits { All (λ job. B.Fits bench.now job) jobs.old }
    ensures many { length jobs.new ≡ length jobs.old }
    ensures did { (at : ℕ) (other : J) → at < length jobs.old → B.Did bench.now (slice_index_or jobs.old at other) (slice_index_or jobs.new at other) }
{
    let step = |_: usize, job: &mut J|
        requires { B.Fits bench.now job.now × IsSync R.row }
        ensures { B.Did bench.entry.now job.entry.now job.exit.now }
    { bench.do_one(rt, job) };
    thread::for_each_mut(rt, jobs, threads, &step);
}
