//! How the nodes of a net are shared out among workers.

ghost use Rattle.std.specs.Prelude.{◌≡◌, ◌<◌};
ghost use Rattle.tnet.specs.Sharing as spec;

use tword::limits::MOST_WORKERS;

/// Whether a net is never shared among this number of workers.
pub fn is_bad_count(workers: usize) -> bool
    ensures { result ≡ spec.is_bad_count workers }
{
    workers < 1 || workers > MOST_WORKERS
}

/// How many nodes a worker gets: as many as the others, rounded up, and the last may get fewer.
pub fn share(nodes: usize, workers: usize) -> usize
    requires { 0 < workers }
    ensures { result ≡ spec.share nodes workers }
{
    nodes.div_ceil(workers)
}
