// The listing of a directory, written to the caller's buffer.
ghost use Rattle.std.specs.Prelude.{◌≡◌, ◌+◌, ◌*◌, ◌<◌, ◌≤◌, ◌++◌, length};
ghost use Rattle.codec.specs.Words.{written};
ghost use Rattle.directory.specs.Entries.{entries_left};
ghost use Rattle.listing.specs.Listings.{plain, file_lines, total_line, listing, listing_answer, listing_after};
ghost use Rattle.listing.specs.Rows.{ListingRows};

use crate::digits::put_plain;
use crate::line::file_line;
use crate::totals::{Totals, totals_of};
use codec::words::put;
use directory::find::is_file;
use directory::walk::Entries;

// Writes a word and a number behind it at a place, and tells the place behind both.
fn put_counted(out: &mut [u8], at: usize, word: &[u8], n: u32) -> usize
    requires { at + length word.now + 10 ≤ length out.old }
    ensures after { out.new ≡ written out.old at (word.now ++ plain n) }
    ensures behind { result ≡ at + length (word.now ++ plain n) }
    ensures room { result ≤ at + length word.now + 10 }
{
    put(out, at, word);
    put_plain(out, at + word.len(), n)
}

// Writes the last line at the start of a buffer, and tells its length. An `ArrayVec` would be no plainer: text goes into it
// by `try_extend_from_slice`, which answers an error that cannot come here.
fn put_totals(out: &mut [u8], totals: Totals) -> usize
    requires { 49 ≤ length out.old }
    ensures after { out.new ≡ written out.old 0 (total_line totals.files totals.used totals.free) }
    ensures long { result ≡ length (total_line totals.files totals.used totals.free) }
    ensures room { result ≤ 49 }
{
    let used = put_counted(out, 0, b"Files ", totals.files);
    let free = put_counted(out, used, b" Used ", totals.used);
    let end = put_counted(out, free, b" Free ", totals.free);
    put(out, end, b"\n");
    end + 1
}

// Writes the lines of the files among some entries. The caller has seen that there is room.
fn put_lines(entries: Entries, out: &mut [u8])
    requires { length (file_lines (entries_left entries)) ≤ length out.old }
    ensures { out.new ≡ written out.old 0 (file_lines (entries_left entries.entry)) }
{
    // By `filter` and `enumerate` this did not prove.
    let mut at = 0;
    for entry in entries {
        if is_file(entry) {
            put(out, at, &file_line(entry));
            at += 30;
        }
    }
}

// Writes the listing of a directory: a line for each file in chain order, and a last line of the number of files, their blocks and
// the free blocks. Tells its length, or leaves the buffer as it is where that is too short.
pub fn write_listing(entries: Entries, out: &mut [u8]) -> Option<usize>
    ensures answer { result ≡ listing_answer (listing (entries_left entries.entry)) (length out.old) }
    ensures after { out.new ≡ listing_after (listing (entries_left entries.entry)) out.old }
{
    let totals = totals_of(entries);
    let lines = 30 * totals.files as usize;
    let mut last = [0; 49];
    let length = put_totals(&mut last, totals);
    if out.len() < lines + length {
        return None;
    }
    put_lines(entries, out);
    put(out, lines, &last[..length]);
    Some(lines + length)
}

// Worked rows of a listing.
pub fn listing_rows()
    ensures { ListingRows }
{}
