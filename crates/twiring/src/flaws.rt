//! Everything that keeps a text from being a wiring, and not only the lowest fault.

ghost use Rattle.std.specs.Prelude.{◌≡◌, ◌≢◌, ◌++◌, ◌↔◌, [], map, IfOk, IsOk, OnOk};
ghost use Rattle.toml.specs.View.{view, items_view, table_view};
ghost use Rattle.tplan.specs.declared.wiring.WiringFault.TheVariants.{OutOfMemory};
ghost use Rattle.twiring.specs.Wirings.{node_keys, root_keys_of, wiring_of_text};
ghost use Rattle.twiring.specs.Flaws as spec;

use crate::near::near_name;
use crate::wiring::{
    Reading, end_at, is_first, is_one_of, kind_at, messages_at, name_at, node_kind_at, number_at,
    timeslice_at, value_at, version_at,
};
use std::alloc::{AllocError, Global};
use toml::{Table, Value};
use tplan::{FileName, WiringFault};
use tword::Items;

/// A table of a wiring. Numbers begin at 0.
#[derive(Clone, Copy, Debug, PartialEq, Eq)]
pub enum Part {
    /// The whole.
    Whole,
    /// This node.
    Node(usize),
    /// This wire.
    Wire(usize),
    /// This source.
    Source(usize),
    /// This sink.
    Sink(usize),
    /// This hold.
    Hold(usize),
}

/// A key of a wiring.
#[derive(Clone, Copy, Debug, PartialEq, Eq)]
pub enum Key {
    /// `version`.
    Version,
    /// `timeslice`.
    Timeslice,
    /// `node`.
    Nodes,
    /// `wire`.
    Wires,
    /// `source`.
    Sources,
    /// `sink`.
    Sinks,
    /// `hold`.
    Holds,
    /// `memory`.
    Memory,
    /// `kind`.
    Kind,
    /// `image`.
    Image,
    /// `a`.
    A,
    /// `b`.
    B,
    /// `end`.
    End,
    /// `messages`.
    Messages,
    /// `capacity`.
    Capacity,
    /// `from`.
    From,
    /// `until`.
    Until,
}

/// Something that keeps a text from being a wiring.
#[derive(Debug, Drop)]
pub enum TextFlaw {
    /// The text is not TOML.
    NoToml,
    /// A table has a key of this name, which its kind has not; this one, which it may have, is near to it.
    UnknownKey(Part, FileName, Option<FileName>),
    /// What stands at a key of a table, or that nothing does, is this fault.
    BadKey(Part, Key, WiringFault),
    /// An entry of an array is no table.
    NoTable(Part),
}

/// Everything that keeps a text from being a wiring: of the whole and of each node, wire, source, sink and hold the
/// unknown keys, and of each key the lowest fault of what stands there.
///
/// # Errors
/// Where the allocator refuses.
pub fn text_flaws(alloc: Global, text: &str) -> Result<Items<TextFlaw>, AllocError>
    ensures exact { IfOk result (λ found. found ≡ spec.text_flaws text.now) }

    // there is nothing just where the text stands for a wiring
    ensures nothing { IfOk result (λ found. (found ≡ []) ↔ IsOk (wiring_of_text text.now)) }
{
    let mut found = Vec::new(alloc);
    match toml::table_from_str(alloc, text) {
        Ok(root) => add_root(alloc, &mut found, &root)?,
        Err(error) if error.is_memory() => return Err(AllocError),
        Err(_) => found.push(TextFlaw::NoToml)?,
    }
    Ok(Items::new(found))
}

/// What is wrong with the whole and its tables.
fn add_root(alloc: Global, found: &mut Vec<TextFlaw>, root: &Table) -> Result<(), AllocError>
    ensures { OnOk result (found.new.items ≡ found.old.items ++ spec.root_flaws (table_view root.now)) }
{
    let first = is_first(root);
    add_head(alloc, found, root, first)?;
    add_array(alloc, found, root, first, Entry::Node)?;
    add_array(alloc, found, root, first, Entry::Wire)?;
    add_array(alloc, found, root, first, Entry::Source)?;
    add_array(alloc, found, root, first, Entry::Sink)?;
    add_array(alloc, found, root, first, Entry::Hold)
}

/// What is wrong with the keys of the whole, and with the version and the timeslice.
fn add_head(
    alloc: Global,
    found: &mut Vec<TextFlaw>,
    root: &Table,
    first: bool,
) -> Result<(), AllocError>
    ensures { OnOk result (found.new.items ≡ found.old.items ++ spec.head_flaws first (table_view root.now)) }
{
    add_unknown_of_root(alloc, found, root, first)?;
    add_key(found, Part::Whole, Key::Version, version_at(root))?;
    add_key(found, Part::Whole, Key::Timeslice, timeslice_at(root))
}

/// The unknown keys of the whole, where the version is 1 and where not.
fn add_unknown_of_root(
    alloc: Global,
    found: &mut Vec<TextFlaw>,
    root: &Table,
    first: bool,
) -> Result<(), AllocError>
    ensures { OnOk result (found.new.items
        ≡ found.old.items ++ spec.unknown_flaws Part.Whole (root_keys_of first) (table_view root.now)) }
{
    if first {
        let names = &["version", "timeslice", "node", "wire", "hold"];
        return add_unknown(alloc, found, Part::Whole, root, names);
    }
    let names = &[
        "version",
        "timeslice",
        "node",
        "wire",
        "source",
        "sink",
        "hold",
    ];
    add_unknown(alloc, found, Part::Whole, root, names)
}

/// The keys of a table that are none of these.
fn add_unknown(
    alloc: Global,
    found: &mut Vec<TextFlaw>,
    part: Part,
    table: &Table,
    names: &[&str],
) -> Result<(), AllocError>
    ensures { OnOk result (found.new.items ≡ found.old.items
        ++ spec.unknown_flaws part (map (λ name. name.now) names.now) (table_view table.now)) }
{
    for key in table.keys() {
        add_if_unknown(alloc, found, part, key.as_str(), names)?;
    }
    Ok(())
}

/// A key, if it is none of these.
fn add_if_unknown(
    alloc: Global,
    found: &mut Vec<TextFlaw>,
    part: Part,
    key: &str,
    names: &[&str],
) -> Result<(), AllocError>
    ensures { OnOk result (found.new.items ≡ found.old.items
        ++ spec.unknown_flaw part (map (λ name. name.now) names.now) key.now) }
{
    if !is_one_of(key, names) {
        let name = FileName::from_str(alloc, key)?;
        let near = near_name(alloc, key, names)?;
        found.push(TextFlaw::UnknownKey(part, name, near))?;
    }
    Ok(())
}

/// What stands at a key of a table, if it is a fault.
fn add_key<T: Drop>(
    found: &mut Vec<TextFlaw>,
    part: Part,
    key: Key,
    reading: Reading<T>,
) -> Result<(), AllocError>
    ensures found { OnOk result (found.new.items ≡ found.old.items ++ spec.key_flaws part key reading) }
    ensures memory { OnOk result (reading ≢ Err OutOfMemory) }
{
    match reading {
        Ok(_) => Ok(()),
        Err(WiringFault::OutOfMemory) => Err(AllocError),
        Err(fault) => {
            found.push(TextFlaw::BadKey(part, key, fault))?;
            Ok(())
        }
    }
}

/// What the tables of an array are.
#[derive(Clone, Copy)]
enum Entry {
    /// Nodes.
    Node,
    /// Wires.
    Wire,
    /// Sources.
    Source,
    /// Sinks.
    Sink,
    /// Holds.
    Hold,
}

impl Entry {
    /// The name of the array.
    fn name(self) -> &'static str
        ensures { result.now ≡ spec.name_of self }
    {
        match self {
            Entry::Node => "node",
            Entry::Wire => "wire",
            Entry::Source => "source",
            Entry::Sink => "sink",
            Entry::Hold => "hold",
        }
    }

    /// The key of the array.
    fn key(self) -> Key
        ensures { result ≡ spec.key_of self }
    {
        match self {
            Entry::Node => Key::Nodes,
            Entry::Wire => Key::Wires,
            Entry::Source => Key::Sources,
            Entry::Sink => Key::Sinks,
            Entry::Hold => Key::Holds,
        }
    }

    /// The entry of a number.
    fn part(self, number: usize) -> Part
        ensures { result ≡ spec.part_of self number }
    {
        match self {
            Entry::Node => Part::Node(number),
            Entry::Wire => Part::Wire(number),
            Entry::Source => Part::Source(number),
            Entry::Sink => Part::Sink(number),
            Entry::Hold => Part::Hold(number),
        }
    }
}

/// What is wrong with the array of these entries, if it is there.
fn add_array(
    alloc: Global,
    found: &mut Vec<TextFlaw>,
    root: &Table,
    first: bool,
    entry: Entry,
) -> Result<(), AllocError>
    ensures { OnOk result (found.new.items ≡ found.old.items ++ spec.array_flaws first entry (table_view root.now)) }
{
    match value_at(root, entry.name()) {
        Some(value) => add_value(alloc, found, value, first, entry),
        None => Ok(()),
    }
}

/// What is wrong with a value that has to be an array of these entries.
fn add_value(
    alloc: Global,
    found: &mut Vec<TextFlaw>,
    value: &Value,
    first: bool,
    entry: Entry,
) -> Result<(), AllocError>
    ensures { OnOk result (found.new.items ≡ found.old.items ++ spec.value_flaws first entry (view value.now)) }
{
    match value.as_array() {
        Some(array) => add_entries(alloc, found, array.as_slice(), first, entry),
        None => {
            let fault = WiringFault::WrongType;
            found.push(TextFlaw::BadKey(Part::Whole, entry.key(), fault))?;
            Ok(())
        }
    }
}

/// What is wrong with the values of an array of these entries.
fn add_entries(
    alloc: Global,
    found: &mut Vec<TextFlaw>,
    array: &[Value],
    first: bool,
    entry: Entry,
) -> Result<(), AllocError>
    ensures { OnOk result (found.new.items ≡ found.old.items ++ spec.items_flaws first entry 0 (items_view array.now)) }
{
    for (number, value) in array.iter().enumerate() {
        add_entry(alloc, found, value, first, entry, entry.part(number))?;
    }
    Ok(())
}

/// What is wrong with a value that has to be an entry.
fn add_entry(
    alloc: Global,
    found: &mut Vec<TextFlaw>,
    value: &Value,
    first: bool,
    entry: Entry,
    part: Part,
) -> Result<(), AllocError>
    ensures { OnOk result (found.new.items ≡ found.old.items ++ spec.item_flaws first entry part (view value.now)) }
{
    match value.as_table() {
        Some(table) => add_table(alloc, found, table, first, entry, part),
        None => {
            found.push(TextFlaw::NoTable(part))?;
            Ok(())
        }
    }
}

/// What is wrong with the table of an entry.
fn add_table(
    alloc: Global,
    found: &mut Vec<TextFlaw>,
    table: &Table,
    first: bool,
    entry: Entry,
    part: Part,
) -> Result<(), AllocError>
    ensures { OnOk result
        (found.new.items ≡ found.old.items ++ spec.entry_flaws first entry part (table_view table.now)) }
{
    match entry {
        Entry::Node => add_node(alloc, found, table, first, part),
        Entry::Wire => add_wire(alloc, found, table, part),
        Entry::Source => add_source(alloc, found, table, part),
        Entry::Sink => add_sink(alloc, found, table, part),
        Entry::Hold => add_hold(alloc, found, table, part),
    }
}

/// What is wrong with the table of a node.
fn add_node(
    alloc: Global,
    found: &mut Vec<TextFlaw>,
    table: &Table,
    first: bool,
    part: Part,
) -> Result<(), AllocError>
    ensures { OnOk result (found.new.items ≡ found.old.items ++ spec.node_flaws first part (table_view table.now)) }
{
    add_unknown_of_node(alloc, found, table, first, part)?;
    add_key(found, part, Key::Memory, number_at(table, "memory"))?;
    add_key(found, part, Key::Kind, node_kind_at(table))?;
    add_image(alloc, found, table, part)
}

/// The unknown keys of a node, where the version is 1 and where not.
fn add_unknown_of_node(
    alloc: Global,
    found: &mut Vec<TextFlaw>,
    table: &Table,
    first: bool,
    part: Part,
) -> Result<(), AllocError>
    ensures { OnOk result (found.new.items
        ≡ found.old.items ++ spec.unknown_flaws part (node_keys first) (table_view table.now)) }
{
    if first {
        return add_unknown(alloc, found, part, table, &["memory", "image"]);
    }
    add_unknown(alloc, found, part, table, &["memory", "kind", "image"])
}

/// What is wrong with the name of an image.
fn add_image(
    alloc: Global,
    found: &mut Vec<TextFlaw>,
    table: &Table,
    part: Part,
) -> Result<(), AllocError>
    ensures { OnOk result (found.new.items ≡ found.old.items ++ spec.image_flaws part (table_view table.now)) }
{
    add_key(found, part, Key::Image, name_at(alloc, table, "image"))
}

/// What is wrong with the table of a wire.
fn add_wire(
    alloc: Global,
    found: &mut Vec<TextFlaw>,
    table: &Table,
    part: Part,
) -> Result<(), AllocError>
    ensures { OnOk result (found.new.items ≡ found.old.items ++ spec.wire_flaws part (table_view table.now)) }
{
    add_unknown(alloc, found, part, table, &["a", "b"])?;
    add_key(found, part, Key::A, end_at(table, "a"))?;
    add_key(found, part, Key::B, end_at(table, "b"))
}

/// What is wrong with the table of a source.
fn add_source(
    alloc: Global,
    found: &mut Vec<TextFlaw>,
    table: &Table,
    part: Part,
) -> Result<(), AllocError>
    ensures { OnOk result (found.new.items ≡ found.old.items ++ spec.source_flaws part (table_view table.now)) }
{
    add_unknown(alloc, found, part, table, &["end", "messages"])?;
    add_key(found, part, Key::End, end_at(table, "end"))?;
    add_messages(alloc, found, table, part)
}

/// What is wrong with the messages of a source.
fn add_messages(
    alloc: Global,
    found: &mut Vec<TextFlaw>,
    table: &Table,
    part: Part,
) -> Result<(), AllocError>
    ensures { OnOk result (found.new.items ≡ found.old.items ++ spec.messages_flaws part (table_view table.now)) }
{
    let messages = messages_at(alloc, table, "messages");
    add_key(found, part, Key::Messages, messages)
}

/// What is wrong with the table of a sink.
fn add_sink(
    alloc: Global,
    found: &mut Vec<TextFlaw>,
    table: &Table,
    part: Part,
) -> Result<(), AllocError>
    ensures { OnOk result (found.new.items ≡ found.old.items ++ spec.sink_flaws part (table_view table.now)) }
{
    add_unknown(alloc, found, part, table, &["end", "capacity"])?;
    add_key(found, part, Key::End, end_at(table, "end"))?;
    add_key(found, part, Key::Capacity, number_at(table, "capacity"))
}

/// What is wrong with the table of a hold.
fn add_hold(
    alloc: Global,
    found: &mut Vec<TextFlaw>,
    table: &Table,
    part: Part,
) -> Result<(), AllocError>
    ensures { OnOk result (found.new.items ≡ found.old.items ++ spec.hold_flaws part (table_view table.now)) }
{
    add_unknown(alloc, found, part, table, &["end", "kind", "from", "until"])?;
    add_key(found, part, Key::End, end_at(table, "end"))?;
    add_key(found, part, Key::Kind, kind_at(table, "kind"))?;
    add_key(found, part, Key::From, number_at(table, "from"))?;
    add_key(found, part, Key::Until, number_at(table, "until"))
}
