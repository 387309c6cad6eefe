//! Wirings: the nodes of a net, how they are joined, what feeds and drains their links and what is held, as TOML.

ghost use Rattle.std.specs.Prelude.{◌≡◌, Ok, Some, None, [], codes, map, option_map, MatchResult};
ghost use Rattle.toml.specs.Data.{get_member};
ghost use Rattle.toml.specs.View.{view, items_view, table_view};
ghost use Rattle.twiring.specs.Messages.{of_a_message};
ghost use Rattle.twiring.specs.Wirings.{is_one_of as spec_is_one_of, is_first_in, root_keys_of, node_keys};
ghost use Rattle.twiring.specs.Wirings.{default_timeslice, wiring_of_text, IsWiringAnswer};
ghost use Rattle.twiring.specs.WiringParts as spec;

use hex::FromHexError;
use std::alloc::Global;
use toml::{Table, Value};
use tplan::{
    End, FileName, Hold, PacketKind, SinkPlan, SourcePlan, Wire, Wiring, WiringFault, WiringNode,
};
use tword::limits::LONGEST_MESSAGE;
use tword::{Items, Kind};

/// The timeslice of a wiring that names none (own choice).
pub const DEFAULT_TIMESLICE: u32 = 1_024;

/// What a part of a wiring stands for, or its lowest fault.
pub(crate) type Reading<T> = Result<T, WiringFault>;

/// The wiring that a text stands for (own choice of format), as TOML: `version`, which is 1 or 2, `timeslice`, which
/// may be absent, and the arrays `node` (`memory` in bytes, `image`), `wire` (its ends `a` and `b`, each a node and a
/// link) and `hold` (`end`, `kind`, and the rounds `from` and `until`); under version 2 also `kind` of a node, which is
/// 1 or 2 and may be absent, and `source` (`end`, which it feeds, and `messages`, each 1 to 4,096 bytes in pairs of
/// hexadecimal digits of either case) and `sink` (`end`, and `capacity` in bytes). A node is of kind 1 where none is
/// named. Whether a net can be made of it is not judged here.
///
/// # Errors
/// The first of these that holds: `Syntax`, `UnknownKey`, `MissingKey`, `WrongType`, `BadVersion`, `BadNumber` for
/// an integer outside 0 to 4,294,967,295, `BadMessage`, `BadKind`. Where the version is not 1, keys are judged as under
/// version 2. `OutOfMemory` where the allocator refuses.
pub fn read_wiring(alloc: Global, text: &str) -> Result<Wiring, WiringFault>
    ensures { IsWiringAnswer (wiring_of_text text.now) result }
{
    match toml::table_from_str(alloc, text) {
        Ok(root) => wiring(alloc, &root),
        Err(error) if error.is_memory() => Err(WiringFault::OutOfMemory),
        Err(_) => Err(WiringFault::Syntax),
    }
}

/// The wiring that a text's table stands for.
fn wiring(alloc: Global, root: &Table) -> Reading<Wiring>
    ensures { IsWiringAnswer (spec.wiring_in (table_view root.now)) result }
{
    let first = is_first(root);
    known_root_keys(root, first)?;
    let nodes = array_at(alloc, root, first, "node");
    let wires = array_at(alloc, root, first, "wire");
    let sources = array_at(alloc, root, first, "source");
    let sinks = array_at(alloc, root, first, "sink");
    let holds = array_at(alloc, root, first, "hold");
    let net = both(nodes, wires);
    let ends = both(sources, sinks);
    let arrays = both(net, both(ends, holds));
    let (timeslice, ((nodes, wires), ((sources, sinks), holds))) = both(head(root), arrays)?;
    Ok(Wiring {
        timeslice,
        nodes,
        wires,
        sources,
        sinks,
        holds,
    })
}

/// Each key of the whole is one of its version, which is 1 or is not.
fn known_root_keys(root: &Table, first: bool) -> Reading<()>
    ensures { result ≡ spec.known (root_keys_of first) (table_view root.now) (Ok tt) }
{
    if first {
        known_keys(root, &["version", "timeslice", "node", "wire", "hold"])
    } else {
        let names = &[
            "version",
            "timeslice",
            "node",
            "wire",
            "source",
            "sink",
            "hold",
        ];
        known_keys(root, names)
    }
}

/// The version is 1.
pub(crate) fn is_first(root: &Table) -> bool
    ensures { result ≡ is_first_in (table_view root.now) }
{
    match value_at(root, "version") {
        Some(version) => version.as_integer() == Some(1),
        None => false,
    }
}

/// The timeslice of a whole whose version is 1 or 2.
fn head(root: &Table) -> Reading<u32>
    ensures { result ≡ spec.head_in (table_view root.now) }
{
    let (_, timeslice) = both(version_at(root), timeslice_at(root))?;
    Ok(timeslice)
}

/// A table of an array.
trait Section: Drop {
    ghost use Rattle.std.specs.Prelude.{Bool, Result};
    ghost use Rattle.toml.specs.Data.{Members};
    ghost use Rattle.tplan.specs.declared.wiring.WiringFault.{WiringFault};

    ghost told: { Bool → Members → Result Self WiringFault };

    /// What a table stands for, where the version is 1 and where not.
    fn read(alloc: Global, table: &Table, first: bool) -> Reading<Self>
        ensures { IsWiringAnswer (told first (table_view table.now)) result };
}

impl Section for WiringNode {
    ghost told = { spec.node_in };

    fn read(alloc: Global, table: &Table, first: bool) -> Reading<WiringNode> {
        known_node_keys(table, first)?;
        let rest = both(node_kind_at(table), name_at(alloc, table, "image"));
        let (memory, (kind, image)) = both(number_at(table, "memory"), rest)?;
        Ok(WiringNode {
            memory,
            kind,
            image,
        })
    }
}

impl Section for Wire {
    ghost told = { λ first. spec.wire_in };

    fn read(_alloc: Global, table: &Table, _first: bool) -> Reading<Wire> {
        known_keys(table, &["a", "b"])?;
        let (a, b) = both(end_at(table, "a"), end_at(table, "b"))?;
        Ok(Wire { a, b })
    }
}

impl Section for SourcePlan {
    ghost told = { λ first. spec.source_in };

    fn read(alloc: Global, table: &Table, _first: bool) -> Reading<SourcePlan> {
        known_keys(table, &["end", "messages"])?;
        let (end, messages) = both(end_at(table, "end"), messages_at(alloc, table, "messages"))?;
        Ok(SourcePlan { end, messages })
    }
}

impl Section for SinkPlan {
    ghost told = { λ first. spec.sink_in };

    fn read(_alloc: Global, table: &Table, _first: bool) -> Reading<SinkPlan> {
        known_keys(table, &["end", "capacity"])?;
        let (end, capacity) = both(end_at(table, "end"), number_at(table, "capacity"))?;
        Ok(SinkPlan { end, capacity })
    }
}

impl Section for Hold {
    ghost told = { λ first. spec.hold_in };

    fn read(_alloc: Global, table: &Table, _first: bool) -> Reading<Hold> {
        known_keys(table, &["end", "kind", "from", "until"])?;
        let place = both(end_at(table, "end"), kind_at(table, "kind"));
        let rounds = both(number_at(table, "from"), number_at(table, "until"));
        let ((end, kind), (from, until)) = both(place, rounds)?;
        Ok(Hold {
            end,
            kind,
            from,
            until,
        })
    }
}

/// The tables of the array at a key, none where it is absent.
fn array_at<T: Section>(alloc: Global, table: &Table, first: bool, key: &str) -> Reading<Items<T>>
    ensures { IsWiringAnswer (spec.array_at (T.told first) key.now (table_view table.now)) result }
{
    let Some(value) = value_at(table, key) else {
        return Ok(Items::new(Vec::new(alloc)));
    };
    let Some(array) = value.as_array() else {
        return Err(WiringFault::WrongType);
    };
    tables(alloc, array.as_slice(), first)
}

/// Each value as a table.
fn tables<T: Section>(alloc: Global, array: &[Value], first: bool) -> Reading<Items<T>>
    ensures { IsWiringAnswer (spec.more_in (spec.table_in (T.told first)) (Ok []) (items_view array.now)) result }
{
    let mut found = Ok(Items::new(Vec::new(alloc)));
    for value in array {
        found = one_more(found, table(alloc, value, first));
    }
    found
}

/// The part of a wiring that a table stands for.
fn table<T: Section>(alloc: Global, value: &Value, first: bool) -> Reading<T>
    ensures { IsWiringAnswer (spec.table_in (T.told first) (view value.now)) result }
{
    match value.as_table() {
        Some(table) => T::read(alloc, table, first),
        None => Err(WiringFault::WrongType),
    }
}

/// The items that were read with the next one behind them, or the lower of their faults.
fn one_more<T: Drop>(found: Reading<Items<T>>, next: Reading<T>) -> Reading<Items<T>>
    ensures { IsWiringAnswer (spec.one_more found next) result }
{
    let (found, next) = both(found, next)?;
    let mut found = found.into_vec();
    found.push(next)?;
    Ok(Items::new(found))
}

/// Two parts that were read, or the lower of their faults.
fn both<A: Drop, B: Drop>(a: Reading<A>, b: Reading<B>) -> Reading<(A, B)>
    ensures { result ≡ spec.both a b }
{
    match a {
        Ok(a) => match b {
            Ok(b) => Ok((a, b)),
            Err(fault) => Err(fault),
        },
        Err(fault) => match b {
            Ok(_) => Err(fault),
            Err(other) => Err(fault.min(other)),
        },
    }
}

/// Each key of a node is one of its version, which is 1 or is not.
fn known_node_keys(table: &Table, first: bool) -> Reading<()>
    ensures { result ≡ spec.known (node_keys first) (table_view table.now) (Ok tt) }
{
    if first {
        known_keys(table, &["memory", "image"])
    } else {
        known_keys(table, &["memory", "kind", "image"])
    }
}

/// Each key is one of these.
fn known_keys(table: &Table, names: &[&str]) -> Reading<()>
    ensures { result ≡ spec.known (map (λ name. name.now) names.now) (table_view table.now) (Ok tt) }
{
    for key in table.keys() {
        if !is_one_of(key.as_str(), names) {
            return Err(WiringFault::UnknownKey);
        }
    }
    Ok(())
}

/// A key is one of these.
pub(crate) fn is_one_of(key: &str, names: &[&str]) -> bool
    ensures { result ≡ spec_is_one_of key.now (map (λ name. name.now) names.now) }
{
    names.iter().any(|name| *name == key)
}

/// The version, which has to be there and to be 1 or 2.
pub(crate) fn version_at(root: &Table) -> Reading<()>
    ensures { result ≡ spec.required spec.version_in (codes "version") (table_view root.now) }
{
    match required(root, "version")?.as_integer() {
        Some(1 | 2) => Ok(()),
        Some(_) => Err(WiringFault::BadVersion),
        None => Err(WiringFault::WrongType),
    }
}

/// The timeslice, which may be absent.
pub(crate) fn timeslice_at(root: &Table) -> Reading<u32>
    ensures { result ≡ spec.value_or (Ok default_timeslice) spec.number_in
        (get_member (codes "timeslice") (table_view root.now)) }
{
    match value_at(root, "timeslice") {
        Some(value) => number(value),
        None => Ok(DEFAULT_TIMESLICE),
    }
}

/// The kind of a node, which is 1 where none is named.
pub(crate) fn node_kind_at(table: &Table) -> Reading<Kind>
    ensures { result ≡ spec.node_kind_at (table_view table.now) }
{
    match value_at(table, "kind") {
        Some(value) => node_kind(value),
        None => Ok(Kind::One),
    }
}

/// The number at a key.
pub(crate) fn number_at(table: &Table, key: &str) -> Reading<u32>
    ensures { result ≡ spec.required spec.number_in key.now (table_view table.now) }
{
    number(required(table, key)?)
}

/// The end at a key.
pub(crate) fn end_at(table: &Table, key: &str) -> Reading<End>
    ensures { result ≡ spec.required spec.end_in key.now (table_view table.now) }
{
    end(required(table, key)?)
}

/// The kind of packets at a key.
pub(crate) fn kind_at(table: &Table, key: &str) -> Reading<PacketKind>
    ensures { result ≡ spec.required spec.kind_in key.now (table_view table.now) }
{
    kind(required(table, key)?)
}

/// The name of a file at a key.
pub(crate) fn name_at(alloc: Global, table: &Table, key: &str) -> Reading<FileName>
    ensures { IsWiringAnswer (spec.required spec.text_in key.now (table_view table.now)) result }
{
    name(alloc, required(table, key)?)
}

/// The messages at a key.
pub(crate) fn messages_at(alloc: Global, table: &Table, key: &str) -> Reading<Items<Items<u8>>>
    ensures { IsWiringAnswer
        (spec.required (spec.array_in spec.message_in) key.now (table_view table.now)) result }
{
    let Some(array) = required(table, key)?.as_array() else {
        return Err(WiringFault::WrongType);
    };
    messages(alloc, array.as_slice())
}

/// A number of 32 bits.
fn number(value: &Value) -> Reading<u32>
    ensures { result ≡ spec.number_in (view value.now) }
{
    match value.as_integer() {
        Some(number) => match u32::try_from(number) {
            Ok(number) => Ok(number),
            Err(_) => Err(WiringFault::BadNumber),
        },
        None => Err(WiringFault::WrongType),
    }
}

/// An end: a node and its link.
fn end(value: &Value) -> Reading<End>
    ensures { result ≡ spec.end_in (view value.now) }
{
    let Some(array) = value.as_array() else {
        return Err(WiringFault::WrongType);
    };
    let [node, link] = array.as_slice() else {
        return Err(WiringFault::WrongType);
    };
    let (node, link) = both(number(node), number(link))?;
    Ok(End { node, link })
}

/// The kind of a node.
fn node_kind(value: &Value) -> Reading<Kind>
    ensures { result ≡ spec.node_kind_in (view value.now) }
{
    match number(value)? {
        1 => Ok(Kind::One),
        2 => Ok(Kind::Two),
        _ => Err(WiringFault::BadKind),
    }
}

/// A kind of packet.
fn kind(value: &Value) -> Reading<PacketKind>
    ensures { result ≡ spec.kind_in (view value.now) }
{
    match value.as_str() {
        Some("ack") => Ok(PacketKind::Ack),
        Some("data") => Ok(PacketKind::Data),
        _ => Err(WiringFault::WrongType),
    }
}

/// The name of a file.
fn name(alloc: Global, value: &Value) -> Reading<FileName>
    ensures { IsWiringAnswer (spec.text_in (view value.now)) result }
{
    match value.as_str() {
        Some(text) => Ok(FileName::from_str(alloc, text)?),
        None => Err(WiringFault::WrongType),
    }
}

/// Each value as a message.
fn messages(alloc: Global, array: &[Value]) -> Reading<Items<Items<u8>>>
    ensures { IsWiringAnswer (spec.more_in spec.message_in (Ok []) (items_view array.now)) result }
{
    let mut found = Ok(Items::new(Vec::new(alloc)));
    for value in array {
        found = one_more(found, message(alloc, value));
    }
    found
}

/// A message, as its bytes, from pairs of hexadecimal digits.
fn message(alloc: Global, value: &Value) -> Reading<Items<u8>>
    ensures { IsWiringAnswer (spec.message_in (view value.now)) result }
{
    let Some(text) = value.as_str() else {
        return Err(WiringFault::WrongType);
    };
    match hex::decode(alloc, text) {
        Ok(bytes) => sized(bytes),
        Err(error) => match error {
            FromHexError::OutOfMemory => Err(WiringFault::OutOfMemory),
            _ => Err(WiringFault::BadMessage),
        },
    }
}

/// The bytes of a message, of which there have to be 1 to 4,096.
fn sized(bytes: Vec<u8>) -> Reading<Items<u8>>
    ensures { result ≡ spec.message (of_a_message (Some bytes.items)) }
{
    if bytes.is_empty() || bytes.len() > LONGEST_MESSAGE {
        return Err(WiringFault::BadMessage);
    }
    Ok(Items::new(bytes))
}

/// The value at a key that has to be there.
fn required<'a>(table: &'a Table, key: &str) -> Reading<&'a Value>
    ensures { MatchResult result
        (λ value. get_member key.now (table_view table.now) ≡ Some (view value.now))
        (λ fault. (get_member key.now (table_view table.now) ≡ None) × (fault ≡ WiringFault.MissingKey)) }
{
    match value_at(table, key) {
        Some(value) => Ok(value),
        None => Err(WiringFault::MissingKey),
    }
}

/// The value at a key.
pub(crate) fn value_at<'a>(table: &'a Table, key: &str) -> Option<&'a Value>
    ensures { option_map (λ v. view v.now) result ≡ get_member key.now (table_view table.now) }
{
    table.get(key)
}
