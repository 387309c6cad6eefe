//! The layout of a run: its columns and its marks.

ghost use Rattle.std.specs.Prelude.{◌≡◌, ◌≤◌, IfOk, OnOk, length};
ghost use Rattle.tword.specs.Limits.{most_nodes};
ghost use Rattle.tnet.specs.Net.{node_at};
ghost use Rattle.thistory.specs.Deeds.{net_behind};
ghost use Rattle.thistory.specs.Steps.{net_after};
ghost use Rattle.tchart.specs.Layout as spec;
ghost use Rattle.tchart.specs.Plots as plots;

use crate::marks::{Mark, Pause};
use crate::plot::{LANES, Plot};
use crate::shown::see;
use crate::waits::reason_at;
use std::alloc::{AllocError, Global};
use tlink::{Node, Role};
use tnet::Net;
use tplan::Event;
use tword::Items;
use tword::limits::MOST_NODES;

/// What a column is of.
#[derive(Clone, Copy)]
pub enum Kind {
    Node,
    Source,
    Sink,
}

/// A column of a picture.
#[derive(Clone, Copy)]
pub struct Column {
    pub kind: Kind,
    /// The number of the node, source or sink.
    pub number: u8,
}

/// A picture of a run.
#[derive(Drop)]
pub struct Chart {
    /// The columns, by their numbers.
    pub columns: Items<Column>,
    /// What is drawn.
    pub marks: Items<Mark>,
    /// The lowest row; beyond the last one that is drawn, one more than that.
    pub rows: u32,
    /// Whether a process waited for which there was no bar.
    pub is_crowded: bool,
}

/// Does events on a net, in their order, and lays out what they did (own choice, `specs/Layout`). One that is not
/// enabled changes nothing, and is not shown. It takes memory for the marks of the first 2,000 rows: a row has a few
/// for each node.
///
/// # Errors
/// Where the allocator refuses.
pub fn lay_out(alloc: Global, net: &mut Net, events: &[Event]) -> Result<Chart, AllocError>
    ensures chart { IfOk result (λ c. c ≡ spec.chart_of events.now net.old) }
    ensures left { OnOk result (net.new ≡ net_after events.now net.old) }
{
    let columns = columns(alloc, net)?;
    let mut plot = Plot::new(alloc)?;
    lay_all(alloc, net, events, &mut plot)?;
    let rows = plot.rows();
    let is_crowded = plot.is_crowded();
    plot.end(rows)?;
    Ok(Chart {
        columns,
        marks: plot.into_marks(),
        rows,
        is_crowded,
    })
}

/// Does events on a net, and lays out what they did.
fn lay_all(
    alloc: Global,
    net: &mut Net,
    events: &[Event],
    plot: &mut Plot,
) -> Result<(), AllocError>
    ensures plot { OnOk result (plot.new ≡ spec.laid_from 0 events.now net.old plot.old) }
    ensures left { OnOk result (net.new ≡ net_after events.now net.old) }
{
    for (number, event) in events.iter().enumerate() {
        lay_one(alloc, net, number as u64, *event, plot)?;
    }
    Ok(())
}

/// Does an event on a net, and lays out what it did.
fn lay_one(
    alloc: Global,
    net: &mut Net,
    number: u64,
    event: Event,
    plot: &mut Plot,
) -> Result<(), AllocError>
    ensures plot { OnOk result (plot.new ≡ spec.laid_one number event net.old plot.old) }
    ensures left { OnOk result (net.new ≡ net_behind net.old event) }
{
    let shown = see(alloc, net, event)?;
    plot.lay(event.node, number, shown)?;
    end_pauses(alloc, net, event.node, number, plot)?;
    Ok(())
}

/// The pauses of a node that are over behind an event of this number are drawn.
fn end_pauses(
    alloc: Global,
    net: &Net,
    node: u8,
    number: u64,
    plot: &mut Plot,
) -> Result<(), AllocError>
    ensures { OnOk result (plot.new ≡ plots.over 6 node number (node_at net.now node) plot.old) }
{
    for lane in 0..LANES {
        end_pause(alloc, net, node, number, lane, plot)?;
    }
    Ok(())
}

/// The pause of a lane is drawn, if it is over.
fn end_pause(
    alloc: Global,
    net: &Net,
    node: u8,
    number: u64,
    lane: u8,
    plot: &mut Plot,
) -> Result<(), AllocError>
    ensures { OnOk result (plot.new ≡ plots.lane_over node number (node_at net.now node) lane plot.old) }
{
    if goes_on(alloc, net, node, plot.lane(node, lane))? {
        return Ok(());
    }
    plot.end_pause(node, number, lane)
}

/// Whether the process of a pause waits yet. Where there is no pause, nothing is over.
fn goes_on(alloc: Global, net: &Net, node: u8, pause: Option<Pause>) -> Result<bool, AllocError>
    ensures { IfOk result (λ b. b ≡ plots.goes_on pause (node_at net.now node)) }
{
    match pause {
        Some(pause) => Ok(reason_at(alloc, net, node, pause.process)?.is_some()),
        None => Ok(true),
    }
}

/// The columns of a net.
fn columns(alloc: Global, net: &Net) -> Result<Items<Column>, AllocError>
    ensures { IfOk result (λ c. c ≡ spec.columns_below most_nodes net.now.nodes) }
{
    let mut columns = Vec::new(alloc);
    for number in 0..MOST_NODES as u8 {
        if let Some(node) = net.nodes().get(usize::from(number)) {
            columns.push(column_of(number, node))?;
        }
    }
    Ok(Items::new(columns))
}

/// The column of a node of this number.
fn column_of(number: u8, node: &Node) -> Column
    ensures { result ≡ spec.column_of number node.now }
{
    let kind = match node.role() {
        Role::Processor(_) => Kind::Node,
        Role::Source(_) => Kind::Source,
        Role::Sink(_) => Kind::Sink,
    };
    Column { kind, number }
}
