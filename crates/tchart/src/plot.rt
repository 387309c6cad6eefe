//! Where the marks of a run stand, while its events are laid out.

ghost use Rattle.std.specs.Prelude.{◌≡◌, true, OnOk, IfOk};
ghost use Rattle.tword.specs.Limits.{most_nodes};
ghost use Rattle.tplan.specs.Wires as wires;
ghost use Rattle.tchart.specs.Plots as spec;

use crate::marks::{Bar, Begun, Lane, Mark, Pause, Track, Way};
use crate::shown::{Message, Shown};
use std::alloc::{AllocError, Global};
use std::marker::Model;
use tplan::plan::End;
use tword::limits::MOST_NODES;
use tword::{Break, Items, Word};

/// How many rows are drawn.
pub(crate) const MOST_ROWS: u32 = 2_000;

/// How many links a node has.
const LINKS: usize = 4;

/// How many lanes for pauses a node has.
pub(crate) const LANES: u8 = 6;

/// A lane without a pause.
const NO_PAUSE: Lane = Lane { pause: None };

/// A node that did nothing yet.
const FRESH_TRACK: Track = Track { row: 0, bar: None };

/// An end at which nothing came yet.
const FRESH_WAY: Way = Way {
    begun: Begun { row: 0, number: 0 },
    sent_row: 0,
    ack_row: 0,
};

/// What is known so far of the nodes and of the ends, and the marks that are drawn.
#[derive(Drop)]
pub struct Plot {
    tracks: Vec<Track>,
    /// The pauses that are not over.
    lanes: Vec<Lane>,
    ways: Vec<Way>,
    marks: Vec<Mark>,
    rows: u32,
    is_crowded: bool,
}

impl Model for Plot {
    ghost use Rattle.tchart.specs.Plots.{PlotState};

    ghost Value = { PlotState };

    ghost view = { λ p. record {
      tracks = p.tracks.items;
      lanes = p.lanes.items;
      ways = p.ways.items;
      marks = p.marks.items;
      rows = p.rows;
      is_crowded = p.is_crowded;
    } };
}

/// The row below one. All rows below the last one that is drawn are one.
pub(crate) fn below(row: u32) -> u32
    ensures { result ≡ spec.below row }
{
    if row <= MOST_ROWS { row + 1 } else { row }
}

/// The place of a lane among those of all nodes.
fn lane_place(node: u8, lane: u8) -> usize
    ensures { result ≡ spec.lane_place node lane }
{
    usize::from(LANES) * usize::from(node) + usize::from(lane)
}

/// The place of an end among those of all nodes.
fn place_of(end: End) -> usize
    ensures { result ≡ spec.place_of end }
{
    LINKS * end.node as usize + end.link as usize
}

/// A bar with one event more.
fn longer(number: u64, bar: Bar) -> Bar
    ensures { result ≡ spec.longer number bar }
{
    Bar {
        row: bar.row,
        first: bar.first,
        last: number,
        count: bar.count.saturating_add(1),
        process: bar.process,
    }
}

/// A bar of one event.
fn one_event(row: u32, number: u64, process: Option<Word>) -> Bar
    ensures { result ≡ spec.one_event row number process }
{
    Bar {
        row,
        first: number,
        last: number,
        count: 1,
        process,
    }
}

/// An end by its node and link.
pub(crate) fn end_at(node: u8, link: u8) -> End
    ensures { result ≡ wires.end_at node link }
{
    End {
        node: u32::from(node),
        link: u32::from(link),
    }
}

impl Plot {
    /// Nothing is known yet of any node. It takes all memory but that of the marks.
    ///
    /// # Errors
    /// Where the allocator refuses.
    pub(crate) fn new(alloc: Global) -> Result<Plot, AllocError>
        ensures { IfOk result (λ p. p ≡ spec.opening) }
    {
        Ok(Plot {
            tracks: vec![in alloc; FRESH_TRACK; MOST_NODES]?,
            ways: vec![in alloc; FRESH_WAY; LINKS * MOST_NODES]?,
            lanes: vec![in alloc; NO_PAUSE; usize::from(LANES) * MOST_NODES]?,
            marks: Vec::new(alloc),
            rows: 0,
            is_crowded: false,
        })
    }

    /// The marks that are drawn.
    pub(crate) fn into_marks(self) -> Items<Mark>
        ensures { result ≡ self.marks }
    {
        let Plot { marks, .. } = self;
        Items::new(marks)
    }

    /// The lowest row that anything stands in.
    pub(crate) fn rows(&self) -> u32
        ensures { result ≡ self.now.rows }
    {
        self.rows
    }

    /// Whether a process waited while there was no lane for it.
    pub(crate) fn is_crowded(&self) -> bool
        ensures { result ≡ self.now.is_crowded }
    {
        self.is_crowded
    }

    /// A node.
    pub(crate) fn track(&self, node: u8) -> Track
        ensures { result ≡ spec.track_at self.now node }
    {
        match self.tracks.get(usize::from(node)) {
            Some(track) => *track,
            None => FRESH_TRACK,
        }
    }

    /// A node is set.
    fn set_track(&mut self, node: u8, track: Track)
        ensures { self.new ≡ spec.with_track node track self.old }
    {
        self.rows = self.rows.max(track.row);
        let at = usize::from(node);
        if at < self.tracks.len() {
            self.tracks[at] = track;
        }
    }

    /// The pause in a lane of a node, if it is not free.
    pub(crate) fn lane(&self, node: u8, lane: u8) -> Option<Pause>
        ensures { result ≡ spec.lane_at self.now node lane }
    {
        self.lane_in(lane_place(node, lane)).pause
    }

    /// The lane in a place.
    fn lane_in(&self, place: usize) -> Lane
        ensures { result ≡ spec.lane_in self.now place }
    {
        match self.lanes.get(place) {
            Some(lane) => *lane,
            None => NO_PAUSE,
        }
    }

    /// A lane is set.
    pub(crate) fn set_lane(&mut self, node: u8, lane: u8, pause: Option<Pause>)
        ensures { self.new ≡ spec.with_lane node lane pause self.old }
    {
        let at = lane_place(node, lane);
        if at < self.lanes.len() {
            self.lanes[at] = Lane { pause };
        }
    }

    /// Something stands in a row.
    pub(crate) fn reach(&mut self, row: u32)
        ensures { self.new ≡ spec.reaching row self.old }
    {
        self.rows = self.rows.max(row);
    }

    /// A process waits, and there is no lane for it.
    pub(crate) fn crowd(&mut self)
        ensures { self.new ≡ record self.old { is_crowded = true } }
    {
        self.is_crowded = true;
    }

    /// An end.
    fn way(&self, end: End) -> Way
        ensures { result ≡ spec.way_at self.now end }
    {
        match self.ways.get(place_of(end)) {
            Some(way) => *way,
            None => FRESH_WAY,
        }
    }

    /// An end is set.
    fn set_way(&mut self, end: End, way: Way)
        ensures { self.new ≡ spec.with_way end way self.old }
    {
        let at = place_of(end);
        if at < self.ways.len() {
            self.ways[at] = way;
        }
    }

    /// A mark is drawn, unless something of it stands below the last row that is drawn.
    pub(crate) fn draw(&mut self, mark: Mark) -> Result<(), AllocError>
        ensures { OnOk result (self.new ≡ spec.drawn mark self.old) }
    {
        if mark.last_row() <= MOST_ROWS {
            self.marks.push(mark)?;
        }
        Ok(())
    }

    /// The last bar of a node is drawn, if it has one.
    fn draw_bar(&mut self, node: u8, bar: Option<Bar>) -> Result<(), AllocError>
        ensures { OnOk result (self.new ≡ spec.with_bar node bar self.old) }
    {
        match bar {
            Some(bar) => self.draw(Mark::Bar { node, bar }),
            None => Ok(()),
        }
    }

    /// A node is at the row below, with this bar. Its last one is drawn.
    fn step(&mut self, node: u8, bar: Option<Bar>) -> Result<(), AllocError>
        ensures { OnOk result (self.new ≡ spec.stepped node bar self.old) }
    {
        let track = self.track(node);
        self.draw_bar(node, track.bar)?;
        self.set_track(
            node,
            Track {
                row: below(track.row),
                bar,
            },
        );
        Ok(())
    }

    /// An event of a node goes into its last bar, if that stands in its row, else into a new one.
    fn run(&mut self, node: u8, number: u64, process: Option<Word>) -> Result<(), AllocError>
        ensures { OnOk result (self.new ≡ spec.ran node number process self.old) }
    {
        let Track { row, bar, .. } = self.track(node);
        match bar {
            Some(bar) if bar.row == row => {
                self.set_track(
                    node,
                    Track {
                        row,
                        bar: Some(longer(number, bar)),
                    },
                );
                Ok(())
            }
            _ => self.step(node, Some(one_event(below(row), number, process))),
        }
    }

    /// A processor halts, if it does.
    fn halt(&mut self, node: u8, number: u64, halts: bool) -> Result<(), AllocError>
        ensures { OnOk result (self.new ≡ spec.halted node number halts self.old) }
    {
        if !halts {
            return Ok(());
        }
        let row = below(self.track(node).row);
        self.step(node, None)?;
        self.draw(Mark::Halt { node, row, number })
    }

    /// A node is frozen.
    fn freeze(&mut self, node: u8, number: u64, broken: Break) -> Result<(), AllocError>
        ensures { OnOk result (self.new ≡ spec.frozen node number broken self.old) }
    {
        let row = below(self.track(node).row);
        self.step(node, None)?;
        self.draw(Mark::Freeze {
            node,
            row,
            number,
            broken,
        })
    }

    /// A node is at the row below.
    fn next(&mut self, node: u8)
        ensures { self.new ≡ spec.next node self.old }
    {
        let track = self.track(node);
        self.set_track(
            node,
            Track {
                row: below(track.row),
                bar: track.bar,
            },
        );
    }

    /// A node is at a row at least.
    fn rise(&mut self, node: u8, row: u32)
        ensures { self.new ≡ spec.risen node row self.old }
    {
        let track = self.track(node);
        self.set_track(
            node,
            Track {
                row: track.row.max(row),
                bar: track.bar,
            },
        );
    }

    /// A message begins.
    fn begin(
        &mut self,
        node: u8,
        number: u64,
        link: u8,
        process: Option<Word>,
    ) -> Result<(), AllocError>
        ensures { OnOk result (self.new ≡ spec.begun node number link process self.old) }
    {
        let row = below(self.track(node).row);
        self.next(node);
        self.draw(Mark::Begin {
            node,
            row,
            number,
            link,
            process,
        })
    }

    /// The first byte of a message goes to an end, from a sender at this row.
    fn first_to(&mut self, end: Option<End>, number: u64, row: u32)
        ensures { self.new ≡ spec.first_to end number row self.old }
    {
        if let Some(end) = end {
            let way = self.way(end);
            self.set_way(
                end,
                Way {
                    begun: Begun { row, number },
                    sent_row: row,
                    ack_row: way.ack_row,
                },
            );
        }
    }

    /// A byte goes to an end, from a sender at this row.
    fn data_to(&mut self, end: Option<End>, row: u32)
        ensures { self.new ≡ spec.data_to end row self.old }
    {
        if let Some(end) = end {
            let way = self.way(end);
            self.set_way(
                end,
                Way {
                    begun: way.begun,
                    sent_row: row,
                    ack_row: way.ack_row,
                },
            );
        }
    }

    /// An acknowledge goes to an end, from a receiver at this row.
    fn ack_to(&mut self, end: Option<End>, row: u32)
        ensures { self.new ≡ spec.ack_to end row self.old }
    {
        if let Some(end) = end {
            let way = self.way(end);
            self.set_way(
                end,
                Way {
                    begun: way.begun,
                    sent_row: way.sent_row,
                    ack_row: row,
                },
            );
        }
    }

    /// A byte is sent, the first of its message or another.
    fn send(
        &mut self,
        node: u8,
        number: u64,
        link: u8,
        to: Option<End>,
        is_first: bool,
        process: Option<Word>,
    ) -> Result<(), AllocError>
        ensures { OnOk result (self.new ≡ spec.sent node number link to is_first process self.old) }
    {
        let row = self.track(node).row;
        if is_first {
            self.begin(node, number, link, process)?;
            self.first_to(to, number, below(row));
        } else {
            self.data_to(to, row);
        }
        Ok(())
    }

    /// A message is complete, if one is.
    fn complete(
        &mut self,
        node: u8,
        number: u64,
        link: u8,
        message: Option<Message>,
    ) -> Result<(), AllocError>
        ensures { OnOk result (self.new ≡ spec.completed node number link message self.old) }
    {
        let Some(message) = message else {
            return Ok(());
        };
        let to = end_at(node, link);
        let begun = self.way(to).begun;
        let row = below(self.track(node).row);
        self.next(node);
        self.draw(Mark::Message {
            to,
            begun,
            row,
            number,
            message,
        })
    }

    /// A receiver takes a byte, which completes a message or not.
    fn take(
        &mut self,
        node: u8,
        number: u64,
        link: u8,
        from: Option<End>,
        message: Option<Message>,
    ) -> Result<(), AllocError>
        ensures { OnOk result (self.new ≡ spec.taken node number link from message self.old) }
    {
        self.complete(node, number, link, message)?;
        let row = self.track(node).row;
        self.ack_to(from, row);
        Ok(())
    }

    /// What an event of this number of a node did is laid out.
    ///
    /// # Errors
    /// Where the allocator refuses.
    pub(crate) fn lay(&mut self, node: u8, number: u64, shown: Shown) -> Result<(), AllocError>
        ensures { OnOk result (self.new ≡ spec.laid node number shown self.old) }
    {
        match shown {
            Shown::Nothing => Ok(()),
            Shown::Run {
                process,
                halted,
                waiter,
            } => {
                self.run(node, number, process)?;
                self.pause(node, number, waiter);
                self.halt(node, number, halted)
            }
            Shown::Sent {
                link,
                to,
                is_first,
                process,
            } => self.send(node, number, link, to, is_first, process),
            Shown::Came(link) => {
                let row = self.way(end_at(node, link)).sent_row;
                self.rise(node, row);
                Ok(())
            }
            Shown::Taken {
                link,
                from,
                message,
            } => self.take(node, number, link, from, message),
            Shown::Acknowledged(link) => {
                let row = self.way(end_at(node, link)).ack_row;
                self.rise(node, row);
                Ok(())
            }
            Shown::Frozen(broken) => self.freeze(node, number, broken),
        }
    }

    /// The last bar of a node is drawn, and its pauses are, down to a row.
    fn end_node(&mut self, node: u8, to: u32) -> Result<(), AllocError>
        ensures { OnOk result (self.new ≡ spec.lanes_ended 6 node to (spec.closed node self.old)) }
    {
        let bar = self.track(node).bar;
        self.draw_bar(node, bar)?;
        self.end_lanes(node, to)
    }

    /// The last bars of all nodes are drawn, and their pauses are, down to a row.
    ///
    /// # Errors
    /// Where the allocator refuses.
    pub(crate) fn end(&mut self, to: u32) -> Result<(), AllocError>
        ensures { OnOk result (self.new ≡ spec.ended most_nodes to self.old) }
    {
        for node in 0..MOST_NODES as u8 {
            self.end_node(node, to)?;
        }
        Ok(())
    }
}
