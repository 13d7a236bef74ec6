// The line of a file.
ghost use Rattle.std.specs.Prelude.{◌≡◌};
ghost use Rattle.listing.specs.Listings.{day_text, date_text, mark, name_text, file_line};

use crate::digits::right_in_five;
use codec::date::{Date, dated, month_name};
use codec::digits::digits;
use codec::name::Name;
use codec::words::put;
use directory::placed::Placed;
use volume::entry::Status;

// A day as dd-Mmm-yyyy.
fn day_text(date: Date) -> [u8; 11]
    ensures { result ≡ day_text date }
{
    let mut text = [b'-'; 11];
    put(&mut text, 0, &digits::<2>(u64::from(date.day)));
    put(&mut text, 3, &month_name(date.month));
    put(&mut text, 7, &digits::<4>(u64::from(date.year)));
    text
}

// What a date word shows as: no date is eleven blanks, and an unlawful one question marks. A rule of the project: by `let .. else`.
#[tactic(auto, unfolding(crate::specs::Listings::date_text))]
fn date_text(word: u16) -> [u8; 11]
    ensures { result ≡ date_text word }
{
    let Ok(date) = dated(word) else {
        return *b"??-???-????";
    };
    match date {
        None => [b' '; 11],
        Some(date) => day_text(date),
    }
}

// P for a protected file.
fn mark(status: Status) -> u8
    ensures { result ≡ mark status }
{
    if status.is_protected() { b'P' } else { b' ' }
}

// Six characters of name, a point and three of type.
#[tactic(auto, unfolding(codec::specs::Names::shown, crate::specs::Listings::name_text))]
fn name_text(name: Name) -> [u8; 10]
    ensures { result ≡ name_text name }
{
    let [a, b, c, d, e, f, g, h, i] = name.shown();
    [a, b, c, d, e, f, b'.', g, h, i]
}

// The line of a file: its name, a blank, its length right-aligned in five columns, P if it is protected, a blank, its date,
// and a line feed.
pub fn file_line(entry: Placed) -> [u8; 30]
    ensures { result ≡ file_line entry }
{
    let mut line = [b' '; 30];
    put(&mut line, 0, &name_text(entry.name));
    put(&mut line, 11, &right_in_five(entry.length));
    put(&mut line, 16, &[mark(entry.status)]);
    put(&mut line, 18, &date_text(entry.date));
    put(&mut line, 29, b"\n");
    line
}
