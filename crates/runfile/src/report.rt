// The lines of the report.
ghost use Rattle.std.specs.Prelude.{◌≡◌, ℕ, ◌+◌, ◌<◌, ◌≤◌, length};
ghost use Rattle.codec.specs.Words.{written};
ghost use Rattle.runfile.specs.Report.{line_of};

use codec::digits::digits;
use codec::words::put;

// A line of 20 bytes: number, tag, result and detail, with blanks between and a line feed.
#[tactic(auto, unfolding(codec::specs::Words::written, crate::specs::Report::line_of))]
pub fn line(number: usize, tag: u8, res: u8, detail: u32) -> [u8; 20]
    ensures { result ≡ line_of number tag res detail }
{
    let mut line = [b' '; 20];
    put(&mut line, 0, &digits::<5>(number as u64));
    put(&mut line, 6, &digits::<2>(u64::from(tag)));
    put(&mut line, 9, &digits::<2>(u64::from(res)));
    put(&mut line, 12, &digits::<7>(u64::from(detail)));
    put(&mut line, 19, b"\n");
    line
}

// Writes a line at `at`. For our other crates: the caller has checked that there is room for it.
pub fn write_line(report: &mut [u8], at: usize, number: usize, tag: u8, res: u8, detail: u32)
    requires { at + 20 ≤ length report.old }
    ensures { report.new ≡ written report.old at (line_of number tag res detail) }
{
    put(report, at, &line(number, tag, res, detail));
}
