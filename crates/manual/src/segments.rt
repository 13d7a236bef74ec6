// A segment of a directory, as the manuals write one out.
ghost use Rattle.std.specs.Prelude.{◌≡◌, ◌+◌, ◌*◌, ◌≤◌, length};

use crate::dates::DateWord;
use crate::paper::{Octal, Text, Words, heading, line};
use codec::words::{put_words, word_at};
use directory::rules::check_rules;
use segment::chain::{chain_of, segment_at};
use segment::entry::{EntryWords, status_at};
use segment::walk::{count_entries, entry_start};
use std::io;
use volume::entry::Status;

// What a status is called.
fn status_name(status: Option<Status>) -> &'static str {
    match status {
        Some(Status::Tentative) => "tentative",
        Some(Status::Empty) => "empty",
        Some(Status::Permanent) => "permanent",
        Some(Status::Protected) => "permanent and protected",
        None => "none",
    }
}

fn status(rt: &HostRuntime, number: u16) -> io::Result<()> {
    let word = Octal(number);
    let name = status_name(status_at(&number.to_le_bytes(), 0));
    println!(rt; "  word {word}{:25}{name}", "")
}

pub(crate) fn statuses(rt: &HostRuntime) -> io::Result<()> {
    heading(rt, "Status words")?;
    status(rt, 0o400)?;
    status(rt, 0o1000)?;
    status(rt, 0o2000)?;
    status(rt, 0o102000)?;
    status(rt, 0o4000)?;
    status(rt, 0)
}

// The bytes of a directory of four segments, for a volume of 494 blocks.
const DIRECTORY: usize = 4096;

// Four segments, no next one, segment 1 the highest in use, no extra bytes, files from block 14 on.
const HEADER: [u16; 5] = [0o4, 0, 0o1, 0, 0o16];

// RT11SJ.SYS, permanent, 67 blocks, 01-Mar-1985.
const MONITOR: [u16; 7] = [0o2000, 0o71677, 0o142302, 0o75273, 0o103, 0, 0o6055];

// DX.SYS, permanent and protected, 3 blocks, of the same day.
const HANDLER: [u16; 7] = [0o102000, 0o16300, 0, 0o75273, 0o3, 0, 0o6055];

// An empty of 410 blocks. An empty may hold any name.
const EMPTY: [u16; 7] = [0o1000, 0o325, 0o63471, 0o23364, 0o632, 0, 0];

const END: [u16; 1] = [0o4000];

// The directory, with segment 1 alone in use.
fn write_directory(dir: &mut [u8])
    requires { 54 ≤ length dir.old }
{
    put_words(dir, 0, &HEADER);
    put_words(dir, 10, &MONITOR);
    put_words(dir, 24, &HANDLER);
    put_words(dir, 38, &EMPTY);
    put_words(dir, 52, &END);
}

// The words of the segment, from its bytes.
fn show_words(rt: &HostRuntime, segment: &[u8; 1024]) -> io::Result<()> {
    heading(rt, "A directory segment, word by word")?;
    line(rt, "header", Words(&segment[0..10]))?;
    line(rt, "entry 1", Words(&segment[10..24]))?;
    line(rt, "entry 2", Words(&segment[24..38]))?;
    line(rt, "entry 3", Words(&segment[38..52]))?;
    line(rt, "end", Words(&segment[52..54]))
}

// An entry, by its words.
fn show_entry(rt: &HostRuntime, number: usize, words: EntryWords) -> io::Result<()> {
    let shown = words.name().shown();
    let name = Text(&shown[0..6]);
    let kind = Text(&shown[6..9]);
    let status = status_name(words.status());
    let length = words.length();
    let date = DateWord(words.date());
    println!(rt; "  entry {number:<30}{name}.{kind} {status}, {length} blocks, {date}")
}

// The entries of the segment, as they are read.
fn show_entries(rt: &HostRuntime, segment: &[u8; 1024]) -> io::Result<()> {
    let extra = word_at(segment, 6);
    let Some(count) = count_entries(segment, extra) else {
        return line(rt, "entries", "none lawful");
    };
    line(rt, "entries", count)?;
    // an entry is found by its index
    for index in 0..count {
        let words = EntryWords::new(segment, entry_start(index, extra));
        show_entry(rt, index + 1, words)?;
    }
    Ok(())
}

// What the header says.
fn show_header(rt: &HostRuntime, segment: &[u8; 1024]) -> io::Result<()> {
    let total = word_at(segment, 0);
    let next = word_at(segment, 2);
    let highest = word_at(segment, 4);
    let extra = word_at(segment, 6);
    let start = word_at(segment, 8);
    println!(rt;
        "  header{:30}{total} segments, next {next}, highest {highest}, {extra} extra bytes, files from block {start}",
        ""
    )
}

// How many segments the chain has, if it ends.
fn show_chain(rt: &HostRuntime, dir: &[u8]) -> io::Result<()>
    requires { 1024 ≤ length dir.now }
{
    match chain_of(dir, 1) {
        Some(chain) => line(rt, "segments in the chain", chain.len()),
        None => line(rt, "segments in the chain", "it does not end"),
    }
}

// The first broken rule of a sound level, on a volume of so many blocks.
fn show_rule(rt: &HostRuntime, dir: &[u8], blocks: u16) -> io::Result<()>
    requires { length dir.now ≡ 4096 }
{
    if word_at(dir, 0) > 4 {
        return line(rt, "segments", "more than there are");
    }
    match check_rules(dir, blocks, None) {
        Ok(()) => println!(rt; "  first broken rule on {blocks} blocks{:5}none", ""),
        Err(rule) => {
            let number = rule.number();
            println!(rt; "  first broken rule on {blocks} blocks{:5}{number}", "")
        }
    }
}

pub(crate) fn segment(rt: &HostRuntime) -> io::Result<()> {
    let mut dir = [0; DIRECTORY];
    write_directory(&mut dir);
    let first = segment_at(&dir, 1);
    show_words(rt, first)?;
    rt.println("What is read from its bytes")?;
    show_header(rt, first)?;
    show_chain(rt, &dir)?;
    show_entries(rt, first)?;
    show_rule(rt, &dir, 494)?;
    show_rule(rt, &dir, 495)
}
