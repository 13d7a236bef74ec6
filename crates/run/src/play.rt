// The run of all fields.
ghost use Rattle.std.specs.Prelude.{◌≡◌, ◌+◌, ◌*◌, ◌≤◌, length};
ghost use Rattle.files.specs.States.{state_of};
ghost use Rattle.runfile.specs.Items.{items};
ghost use Rattle.run.specs.Fields.{performed};
ghost use Rattle.run.specs.Play.{end_number, stop_number, ran, play, shown_tag, reported};

use crate::perform::{detail_of, is_known, number_of, perform};
use device::Device;
use files::pack::Pack;
use level::load::WORKSPACE;
use runfile::field::Fields;
use runfile::report::write_line;

// Why a run stops before its end.
#[derive(Clone, Copy, Debug, PartialEq, Eq)]
pub enum Stop {
    CutShort,
    ReportFull,
    RunTooLong,
    WorkspaceTooSmall,
}

impl Stop {
    // 17 or 18. A method and no `From`, since every answer has it by this name.
    pub fn number(self) -> u8
        ensures { result ≡ stop_number self }
    {
        match self {
            Stop::CutShort => 17,
            Stop::ReportFull | Stop::RunTooLong | Stop::WorkspaceTooSmall => 18,
        }
    }
}

// The lines written to the report, and how the run ended.
#[derive(Clone, Copy)]
pub struct Ran {
    pub lines: usize,
    pub end: Result<(), Stop>,
}

impl Ran {
    // 0 where all fields have run, else the number of the stop. A method and no `From`, since every answer has it by this name.
    pub fn number(self) -> u8
        ensures { result ≡ end_number self.end }
    {
        self.end.err().map_or(0, |stop| stop.number())
    }
}

// The tag that a line shows: 0 where it is unknown.
fn tag_shown(tag: u8) -> u8
    ensures { result ≡ shown_tag tag }
{
    if is_known(tag) { tag } else { 0 }
}

// Runs one field, and reports it as the line that follows so many.
fn report_field<D: Device>(
    pack: &mut Pack<D>,
    tag: u8,
    body: &[u8],
    lines: usize,
    report: &mut [u8],
)
    requires { 20 * lines + 20 ≤ length report.old }
    ensures state { state_of D.Device.held pack.new ≡ (performed (state_of D.Device.held pack.old) tag body.now).after }
    ensures fixed { D.Device.fixed pack.new.levels.below ≡ D.Device.fixed pack.old.levels.below }
    ensures report { report.new ≡ reported lines report.old tag (performed (state_of D.Device.held pack.old) tag body.now) }
{
    let answer = perform(pack, tag, body);
    write_line(
        report,
        20 * lines,
        lines + 1,
        tag_shown(tag),
        number_of(answer),
        detail_of(answer),
    );
}

// Runs the fields of `run` in order, each with a line of the report, until one has no room for its line or is cut short.
fn run_fields<D: Device>(pack: &mut Pack<D>, run: &[u8], report: &mut [u8]) -> Ran
    ensures lines { result.lines ≡ (play (state_of D.Device.held pack.old) 0 report.old (items run.now)).lines }
    ensures end { result.end ≡ (play (state_of D.Device.held pack.old) 0 report.old (items run.now)).end }
    ensures state { state_of D.Device.held pack.new ≡ (play (state_of D.Device.held pack.old) 0 report.old (items run.now)).pack }
    ensures report { report.new ≡ (play (state_of D.Device.held pack.old) 0 report.old (items run.now)).report }
    ensures fixed { D.Device.fixed pack.new.levels.below ≡ D.Device.fixed pack.old.levels.below }
    ensures fits { 20 * result.lines ≤ length report.new }
{
    // Counted by hand, since the count is told when the loop has ended.
    let mut lines = 0;
    for field in Fields::of(run) {
        if report.len() - 20 * lines < 20 {
            return Ran {
                lines,
                end: Err(Stop::ReportFull),
            };
        }
        let Ok(part) = field else {
            return Ran {
                lines,
                end: Err(Stop::CutShort),
            };
        };
        report_field(pack, part.tag, part.body, lines, report);
        lines += 1;
    }
    Ran { lines, end: Ok(()) }
}

// RUN. A run of more than 262,144 bytes or a workspace of fewer than 32,768 is refused before anything is looked at.
pub fn run<D: Device>(pack: &mut Pack<D>, run: &[u8], work: &mut [u8], report: &mut [u8]) -> Ran
    ensures lines { result.lines ≡ (ran (state_of D.Device.held pack.old) run.now (length work.old) report.old).lines }
    ensures end { result.end ≡ (ran (state_of D.Device.held pack.old) run.now (length work.old) report.old).end }
    ensures state { state_of D.Device.held pack.new ≡ (ran (state_of D.Device.held pack.old) run.now (length work.old) report.old).pack }
    ensures report { report.new ≡ (ran (state_of D.Device.held pack.old) run.now (length work.old) report.old).report }
    ensures fixed { D.Device.fixed pack.new.levels.below ≡ D.Device.fixed pack.old.levels.below }
    ensures fits { 20 * result.lines ≤ length report.new }
{
    if run.len() > 262_144 {
        return Ran {
            lines: 0,
            end: Err(Stop::RunTooLong),
        };
    }
    if work.len() < WORKSPACE {
        return Ran {
            lines: 0,
            end: Err(Stop::WorkspaceTooSmall),
        };
    }
    run_fields(pack, run, report)
}
