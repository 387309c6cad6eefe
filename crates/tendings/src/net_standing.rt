//! Where a net stands, as it is printed.

ghost use Rattle.std.specs.Prelude.{◌≡◌, ◌≤◌, IfOk, length, map};
ghost use Rattle.tword.specs.Limits.{most_nodes};
ghost use Rattle.tfiles.specs.Outputs.{IsOut};
ghost use Rattle.twhere.specs.Standing as spec;
ghost use Rattle.twhere.specs.Standing.{listed_of};

use std::alloc::{AllocError, Global};
use tfiles::counted::{CountedWrite, Uncounted};
use tfiles::writing::output::{Output, WriteFault};
use tnet::Net;
use twhere::{Listed, list_net, put_where};
use tword::Items;

/// Where a net stands, as it is printed.
///
/// # Errors
/// Where the allocator refuses.
pub fn standing(alloc: Global, net: &Net) -> Result<Items<u8>, AllocError>
    requires { length net.now.nodes ≤ most_nodes }
    ensures { IfOk result (λ text. text ≡ spec.where_text net.now) }
{
    let listed = list_net(alloc, net)?;
    let mut text = Uncounted(Vec::new(alloc));
    match write_where(&mut text, net, listed.as_slice()) {
        Ok(()) => Ok(Items::new(text.0)),
        Err(_) => Err(AllocError),
    }
}

/// Writes where a net stands, of which the processes are listed.
fn write_where<W: CountedWrite>(out: &mut W, net: &Net, listed: &[Listed]) -> Result<(), WriteFault>
    requires listed { listed.now ≡ map (λ n. listed_of n.machine.control) net.now.nodes }
    requires few { length net.now.nodes ≤ most_nodes }
    ensures { IsOut (W.contents out.old) (W.contents out.new) (spec.where_text net.now) result }
{
    let mut output = Output::new(out);
    put_where(&mut output, net, listed);
    output.finish()
}
