//! Numbers by which names of processes are told apart: processes of one name have the same one.

ghost use Rattle.std.specs.Prelude.{◌≡◌};
ghost use Rattle.tcertify.specs.Fingerprints as spec;
ghost use Rattle.tcertify.specs.Processes.{name_of, root_of};

use crate::process::{Process, Root};

/// An odd number whose bits are spread: 2^64 over the golden ratio.
const SPREAD: u64 = 0x9e37_79b9_7f4a_7c15;

/// A fingerprint with one more number in it.
#[tactic(auto, unfolding(crate::specs::Fingerprints::mixed))]
fn mixed(print: u64, number: u32) -> u64
    ensures { result ≡ spec.mixed print number }
{
    (print ^ u64::from(number)).wrapping_mul(SPREAD)
}

/// The fingerprint of where a name begins.
fn root_fingerprint(root: Root) -> u64
    ensures { result ≡ spec.root_fingerprint (root_of root) }
{
    match root {
        Root::Image(number) => mixed(1, number),
        Root::After { workspace, earlier } => mixed(mixed(2, workspace.get()), earlier),
    }
}

impl Process {
    /// The fingerprint of its name.
    pub(crate) fn fingerprint(&self) -> u64
        ensures { result ≡ spec.fingerprint (name_of 0 self.now) }
    {
        let root = root_fingerprint(self.root);
        self.path
            .iter()
            .rev()
            .fold(root, |print, child| mixed(print, *child))
    }
}
