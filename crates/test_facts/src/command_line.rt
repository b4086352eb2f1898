//! What follows from the contract of `job`.
ghost use Rattle.std.specs.Prelude.{◌≡◌, IfOk, true, false};

use clap::Error;
use dvg_args::job;
use dvg_args::laws::text_job_arguments;
use dvg_job::Job;
use std::alloc::Global;

/// The arguments `dvg play --all` ask for `play` of each entry, over a flat store.
pub fn asks_for_each_entry(alloc: Global) -> Result<Job, Error>
    ensures { IfOk result (λ job. job ≡ Job.Play true false) }
{
    text_job_arguments();
    job(alloc, &["dvg", "play", "--all"])
}
