//! Nodes whose memories are filled at random, and events drawn at random on them: what is not enabled changes nothing,
//! a frozen node does nothing more, and the events that were done are a run.

use crate::examples::{Scripts, net_of, plan};
use crate::fault::{Fault, require};
use crate::texts::dump;
use std::alloc::{AllocError, Global};
use tlink::StepFault;
use tnet::Net;
use tplan::{Act, End, Event, Image, NodePlan, Plan, Process, Segment, Wire};
use trounds::replay;
use tword::{Items, Kind, Word};

/// Two nodes, and what lies at the ends of their links. Wires join all links of the same number; or those below 3, and
/// a source feeds link 3 of the first node, and a sink drains link 3 of the second.
#[derive(Clone, Copy)]
struct Setup {
    kind: Kind,
    is_scripted: bool,
}

/// Two nodes of 4,096 bytes: the first byte that is filled, and how many are.
const FIRST: u32 = 0x8000_0080;

const COUNT: u32 = 4_096 - 0x80;

/// The processes of each node: a low one at the first of these bytes, and a high one at #80000A00.
const PROCESSES: &[(u32, u32)] = &[(0x8000_0401, FIRST), (0x8000_0800, 0x8000_0a00)];

/// How many events are drawn on a net, and how often its dump is looked at.
const CALLS: u32 = 100_000;

const LOOK: u32 = 1_000;

/// The next number of the generator.
fn next(bits: u32) -> u32 {
    bits.wrapping_mul(1_664_525).wrapping_add(1_013_904_223)
}

/// Bytes from the generator: each is the top eight bits of the next number.
fn filled(alloc: Global, bits: &mut u32) -> Result<Vec<u8>, AllocError> {
    let mut bytes = Vec::new(alloc);
    for _byte in 0..COUNT {
        *bits = next(*bits);
        let [_, _, _, top] = bits.to_le_bytes();
        bytes.push(top)?;
    }
    Ok(bytes)
}

/// The processes of a node.
fn processes(alloc: Global) -> Result<Vec<Process>, AllocError> {
    let mut processes = Vec::new(alloc);
    for (wdesc, iptr) in PROCESSES {
        processes.push(Process {
            wdesc: Word::new(*wdesc),
            iptr: Word::new(*iptr),
        })?;
    }
    Ok(processes)
}

/// The only segment of a node, filled from the generator.
fn segments(alloc: Global, bits: &mut u32) -> Result<Vec<Segment>, AllocError> {
    let mut segments = Vec::new(alloc);
    segments.push(Segment {
        address: Word::new(FIRST),
        bytes: Items::new(filled(alloc, bits)?),
    })?;
    Ok(segments)
}

/// A node that is filled from the generator.
fn random_node(alloc: Global, kind: Kind, bits: &mut u32) -> Result<NodePlan, AllocError> {
    let segments = Items::new(segments(alloc, bits)?);
    Ok(NodePlan {
        memory: 4_096,
        kind,
        image: Image {
            segments,
            processes: Items::new(processes(alloc)?),
        },
    })
}

/// Two nodes that are filled from the generator.
fn random_nodes(alloc: Global, kind: Kind, bits: &mut u32) -> Result<Vec<NodePlan>, AllocError> {
    let mut nodes = Vec::new(alloc);
    for _node in 0..2 {
        nodes.push(random_node(alloc, kind, bits)?)?;
    }
    Ok(nodes)
}

/// The wires between the links whose numbers are below this one.
fn wires(alloc: Global, below: u32) -> Result<Vec<Wire>, AllocError> {
    let mut wires = Vec::new(alloc);
    for link in 0..below {
        wires.push(Wire {
            a: End { node: 0, link },
            b: End { node: 1, link },
        })?;
    }
    Ok(wires)
}

/// Where the source and the sink are, where there are some.
const SCRIPTS: Scripts = Scripts {
    fed: End { node: 0, link: 3 },
    drained: End { node: 1, link: 3 },
};

/// A plan of two nodes that are filled from the generator.
fn random_plan(alloc: Global, setup: Setup, bits: &mut u32) -> Result<Plan, AllocError> {
    let nodes = random_nodes(alloc, setup.kind, bits)?;
    if setup.is_scripted {
        plan(alloc, nodes, wires(alloc, 3)?, Some(SCRIPTS))
    } else {
        plan(alloc, nodes, wires(alloc, 4)?, None)
    }
}

/// The event that 32 drawn bits stand for: bit 31 is the node, bits 28 to 30 modulo 5 choose the act, bits 26 and 27
/// the link. Where there are a source and a sink, bit 25 says whether it is one of them.
fn drawn(setup: Setup, bits: u32) -> Event {
    let [_, _, _, top] = bits.to_le_bytes();
    let link = (top >> 2) & 3;
    let act = match ((top >> 4) & 7) % 5 {
        0 => Act::Run,
        1 => Act::Send(link),
        2 => Act::Data(link),
        3 => Act::Take(link),
        _ => Act::Ack(link),
    };
    let script = if setup.is_scripted { top & 2 } else { 0 };
    Event {
        node: (top >> 7) | script,
        act,
    }
}

/// What was seen of a net.
#[derive(Drop)]
struct Seen {
    /// The events that were done, with those that froze their node.
    done: Vec<Event>,
    /// The nodes that are frozen.
    frozen: Vec<u8>,
    /// How often the dump was looked at behind an event that was not enabled.
    looks: u32,
}

impl Seen {
    fn new(alloc: Global) -> Seen {
        Seen {
            done: Vec::new(alloc),
            frozen: Vec::new(alloc),
            looks: 0,
        }
    }

    /// Notes an event that was done, and whether it froze its node: of one that is frozen none is done.
    fn note(&mut self, event: Event, freezes: bool) -> Result<(), Fault> {
        if self.frozen.iter().any(|number| *number == event.node) {
            return Err(Fault::Wrong("a frozen node does something"));
        }
        self.done.push(event)?;
        if freezes {
            self.frozen.push(event.node)?;
        }
        Ok(())
    }
}

/// An event, and whether it was done.
fn do_one(net: &mut Net, event: Event, seen: &mut Seen) -> Result<bool, Fault> {
    match net.step(event) {
        Err(StepFault::NotEnabled) => Ok(false),
        answer => {
            seen.note(event, answer.is_err())?;
            Ok(true)
        }
    }
}

/// An event; where it is not enabled, the dump is as it was.
fn look_at(alloc: Global, net: &mut Net, event: Event, seen: &mut Seen) -> Result<(), Fault> {
    let before = dump(alloc, net)?;
    if do_one(net, event, seen)? {
        return Ok(());
    }
    seen.looks = seen.looks.saturating_add(1);
    require(
        dump(alloc, net)?.as_slice() == before.as_slice(),
        "an event that is not enabled changes a net",
    )
}

/// Events that are drawn on a net.
fn draw(
    alloc: Global,
    net: &mut Net,
    setup: Setup,
    mut bits: u32,
    seen: &mut Seen,
) -> Result<(), Fault> {
    for call in 1..=CALLS {
        bits = next(bits);
        let event = drawn(setup, bits);
        if call % LOOK == 0 {
            look_at(alloc, net, event, seen)?;
        } else {
            do_one(net, event, seen)?;
        }
    }
    Ok(())
}

/// The events that were done are a run from the net as it was opened, which has the same result.
fn is_run(alloc: Global, opened: Net, net: &Net, seen: &Seen) -> Result<bool, Fault> {
    let left = dump(alloc, net)?;
    match replay(alloc, opened, seen.done.as_slice()) {
        Ok(again) => Ok(dump(alloc, &again.net)?.as_slice() == left.as_slice()),
        Err(_fault) => Err(Fault::Wrong("what was done is no run")),
    }
}

/// Events that are drawn on a net, which are a run.
fn draw_run(
    alloc: Global,
    mut net: Net,
    setup: Setup,
    bits: u32,
    seen: &mut Seen,
) -> Result<(), Fault> {
    let opened = net.try_copy(alloc)?;
    draw(alloc, &mut net, setup, bits, seen)?;
    require(!seen.done.as_slice().is_empty(), "a net does nothing")?;
    require(
        is_run(alloc, opened, &net, seen)?,
        "a run has another result",
    )
}

/// A net of random code, and what is drawn on it. How often it was looked at, and how many nodes are frozen.
fn attempt(alloc: Global, setup: Setup, seed: u32) -> Result<(u32, usize), Fault> {
    let mut bits = seed;
    let net = net_of(alloc, random_plan(alloc, setup, &mut bits)?)?;
    let mut seen = Seen::new(alloc);
    draw_run(alloc, net, setup, bits, &mut seen)?;
    Ok((seen.looks, seen.frozen.len()))
}

/// Fifty seeds; each net does something, each look is counted, and some nodes freeze.
fn attempt_all(alloc: Global, setup: Setup) -> Result<(), Fault> {
    let (mut looks, mut frozen) = (0u32, 0usize);
    for seed in 1..=50 {
        let (seen, froze) = attempt(alloc, setup, seed)?;
        looks = looks.saturating_add(seen);
        frozen = frozen.saturating_add(froze);
    }
    require(
        looks > 0 && frozen > 0,
        "no net was looked at, or no node froze",
    )
}

#[test]
fn random_code(rt: HostRuntime) -> Result<(), Fault> {
    let setup = Setup {
        kind: Kind::One,
        is_scripted: false,
    };
    attempt_all(rt.alloc(), setup)
}

#[test]
fn random_code_of_kind_2(rt: HostRuntime) -> Result<(), Fault> {
    let setup = Setup {
        kind: Kind::Two,
        is_scripted: false,
    };
    attempt_all(rt.alloc(), setup)
}

#[test]
fn random_code_beside_a_source_and_a_sink(rt: HostRuntime) -> Result<(), Fault> {
    let setup = Setup {
        kind: Kind::One,
        is_scripted: true,
    };
    attempt_all(rt.alloc(), setup)
}
