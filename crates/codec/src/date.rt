// Date words: the year from 1972 in two parts, the month and the day.
ghost use Rattle.std.specs.Prelude.{◌≡◌};
ghost use Rattle.codec.specs.Dates.{date_in, is_day, dated_of, month_name, DateRows};

// A day of a month of a year.
#[derive(Clone, Copy, Debug, PartialEq, Eq)]
pub struct Date {
    pub day: u8,
    pub month: u8,
    pub year: u16,
}

// A word that is no lawful date.
#[derive(Clone, Copy, Debug, PartialEq, Eq)]
pub struct UnlawfulDate;

// What a date word says: 0 is no date, any other word has to name a day.
#[tactic(auto, unfolding(crate::specs::Dates::dated_of))]
pub fn dated(word: u16) -> Result<Option<Date>, UnlawfulDate>
    ensures { result ≡ dated_of word }
{
    if word == 0 {
        return Ok(None);
    }
    let date = date_in(word);
    if is_day(date) {
        Ok(Some(date))
    } else {
        Err(UnlawfulDate)
    }
}

// The fields of a date word: y in bits 0 to 4, the day in 5 to 9, the month in 10 to 13, the age in 14 and 15.
fn date_in(word: u16) -> Date
    ensures { result ≡ date_in word }
{
    let age = word / 16384;
    Date {
        day: (word / 32 % 32) as u8,
        month: (word / 1024 % 16) as u8,
        year: 1972 + 32 * age + word % 32,
    }
}

// Whether there is such a day. Every month counts 31.
fn is_day(date: Date) -> bool
    ensures { result ≡ is_day date }
{
    (1..=12).contains(&date.month) && (1..=31).contains(&date.day)
}

// The first three letters of a month, or question marks where there is no such month.
pub fn month_name(month: u8) -> [u8; 3]
    ensures { result ≡ month_name month }
{
    match month {
        1 => *b"Jan",
        2 => *b"Feb",
        3 => *b"Mar",
        4 => *b"Apr",
        5 => *b"May",
        6 => *b"Jun",
        7 => *b"Jul",
        8 => *b"Aug",
        9 => *b"Sep",
        10 => *b"Oct",
        11 => *b"Nov",
        12 => *b"Dec",
        _ => *b"???",
    }
}

// A row of the table of dates.
#[tactic(auto, unfolding(crate::specs::Dates::dated_of))]
pub fn date_rows()
    ensures { DateRows }
{}
