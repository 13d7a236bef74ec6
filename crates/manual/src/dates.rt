// Date words.
use crate::paper::{Octal, Text, heading};
use codec::date::{Date, UnlawfulDate, dated, month_name};
use std::{fmt, io};

// What a date word says.
#[derive(Drop)]
pub(crate) struct DateWord(pub(crate) u16);

impl fmt::Display for DateWord {
    fn fmt<W: fmt::Write>(&self, f: &mut fmt::Formatter<W>) -> fmt::Result {
        match dated(self.0) {
            Ok(None) => f.write_str("no date"),
            Ok(Some(date)) => write_day(date, f),
            Err(UnlawfulDate) => f.write_str("unlawful"),
        }
    }
}

fn write_day<W: fmt::Write>(date: Date, f: &mut fmt::Formatter<W>) -> fmt::Result {
    let day = date.day;
    let name = month_name(date.month);
    let month = Text(&name);
    let year = date.year;
    write!(f, "{day:02}-{month}-{year}")
}

fn read(rt: &HostRuntime, number: u16, note: &str) -> io::Result<()> {
    let word = Octal(number);
    let said = DateWord(number);
    println!(rt; "  {number:>5}, word {word} {note:<17}{said}")
}

pub(crate) fn dates(rt: &HostRuntime) -> io::Result<()> {
    heading(rt, "Date words")?;
    read(rt, 3117, "")?;
    read(rt, 13_311, "")?;
    read(rt, 0, "")?;
    read(rt, 17_440, "the next age")?;
    read(rt, 62_463, "the last day")?;
    read(rt, 13_357, "month 13")?;
    read(rt, 45, "month 0")?;
    read(rt, 3085, "day 0")?;
    read(rt, 65_535, "all ones")
}
