// Jobs that threads do beside each other.
ghost use Rattle.std.specs.Prelude.{◌<◌, length, All};
ghost use Rattle.std.specs.List.{AllZip};

use std::thread::{Threads, for_each_mut};

/// A job for a thread, over what all jobs share.
pub(crate) trait Job<S> {
    /// It can be done.
    ghost is_ready: { Self → Type 0 };

    /// What became of it when it was done.
    ghost became: { Self → Self → Type 0 };

    /// Does it.
    fn run(&mut self, shared: &S)
        requires { is_ready self.old }
        ensures { became self.old self.new };
}

/// Does all jobs beside each other.
pub(crate) fn do_all<S: Sync, T: Job<S> + Send, R: Threads + Sync>(
    rt: &R,
    shared: &S,
    jobs: &mut [T],
)
    requires some { 0 < length jobs.old }
    requires ready { All T.is_ready jobs.old }
    ensures { AllZip T.became jobs.old jobs.new }
{
    let threads = jobs.len();
    for_each_mut(
        rt,
        jobs,
        threads,
        &|_, job: &mut T|
            requires { T.is_ready job.now }
            ensures { T.became job.entry.now job.exit.now }
        { job.run(shared) },
    );
}
