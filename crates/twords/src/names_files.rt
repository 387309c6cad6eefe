//! The files of names that a command line asks for.

ghost use Rattle.std.specs.Prelude.{◌≡◌, IfOk, map};
ghost use Rattle.std.specs.List.{list_all};
ghost use Rattle.clap.specs.Words.{found_of, rows_of};
ghost use Rattle.twords.specs.NamesFiles as spec;
ghost use Rattle.twords.specs.Table.{names_in};

use crate::table::{Argument, Form};
use clap::ArgMatches;
use std::alloc::{AllocError, Global};
use std::marker::Model;
use tplan::FileName;

/// How many decimal digits the number of a node has at most.
const DIGITS: usize = 3;

/// A file of names, as it is asked for.
#[derive(Drop)]
pub struct NamesFile {
    /// The number of the node whose names these are; none where they are those of each node.
    pub node: Option<u8>,
    /// The name of the file.
    pub file: FileName,
}

/// The files of names that are asked for, in the order of their words.
#[derive(Drop)]
pub struct NamesFiles {
    list: Vec<NamesFile>,
}

impl Model for NamesFiles {
    ghost use Rattle.std.specs.Prelude.{List};
    ghost use Rattle.twords.specs.declared.names_files.NamesFile.{NamesFile};

    ghost Value = { List NamesFile };

    ghost view = { λ files. files.list.items };
}

impl NamesFiles {
    /// These files, in this order.
    fn new(list: Vec<NamesFile>) -> NamesFiles
        ensures { result ≡ list.items }
    {
        NamesFiles { list }
    }

    /// The files as a slice.
    pub fn as_slice(&self) -> &[NamesFile]
        ensures { result.now ≡ self.now }
    {
        self.list.as_slice()
    }
}

/// The files of names that the words of `--names` ask for, in their order.
pub(crate) fn names_files(alloc: Global, given: &ArgMatches) -> Result<NamesFiles, AllocError>
    ensures { IfOk result (λ all. all ≡ names_in (rows_of (found_of given.now))) }
{
    match given.get_strs("names") {
        Some(words) => files_of(alloc, words),
        None => files_of(alloc, &[]),
    }
}

/// The files of names that words stand for.
fn files_of(alloc: Global, words: &[&str]) -> Result<NamesFiles, AllocError>
    ensures { IfOk result (λ all. all ≡ map spec.names_file_of (map (λ w. w.now) words.now)) }
{
    let mut all = Vec::new(alloc);
    for word in words {
        all.push(names_file(alloc, word)?)?;
    }
    Ok(NamesFiles::new(all))
}

/// The file of names that a word stands for.
fn names_file(alloc: Global, word: &str) -> Result<NamesFile, AllocError>
    ensures { IfOk result (λ file. file ≡ spec.names_file_of word.now) }
{
    let (node, file) = parts_of(word);
    Ok(NamesFile {
        node,
        file: FileName::from_str(alloc, file)?,
    })
}

/// The number of the node and the name of the file that a word stands for.
fn parts_of(word: &str) -> (Option<u8>, &str)
    ensures { spec.names_file_of word.now ≡ record { node = result.0; file = result.1.now } }
{
    match word.split_once('=') {
        Some((before, file)) => match node_of(before) {
            Some(node) => (Some(node), file),
            None => (None, word),
        },
        None => (None, word),
    }
}

/// The number of a node that a text stands for, if it does.
fn node_of(text: &str) -> Option<u8>
    ensures { result ≡ spec.node_of text.now }
{
    if text.len() > DIGITS || !are_decimal(text.as_bytes()) {
        return None;
    }
    match text.parse::<u8>() {
        Ok(node) => Some(node),
        Err(_) => None,
    }
}

/// Whether all bytes are decimal digits.
fn are_decimal(text: &[u8]) -> bool
    ensures { result ≡ list_all spec.is_decimal text.now }
{
    text.iter().all(u8::is_ascii_digit)
}

/// `--names FILE`, `--names N=FILE`.
pub(crate) const NAMES: Argument = Argument {
    name: "names",
    form: Form::Texts,
    value: "FILE",
    help: "Puts names after the addresses, from this file; N=FILE: for node N alone. May be given again",
};
