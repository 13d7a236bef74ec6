// Tries worked examples of the RT-11 manuals, and prints each with what came out.
#![tactic(auto)]

use std::io;

mod dates;
mod home;
mod names;
mod paper;
mod sectors;
mod segments;

fn main(rt: HostRuntime) -> io::Result<()> {
    rt.println(
        "Worked examples of RT-11 volumes: on the left what is tried, on the right what came out.",
    )?;
    rt.println("Words are octal with six digits. All other numbers are decimal.")?;
    names::words(&rt)?;
    names::names(&rt)?;
    dates::dates(&rt)?;
    segments::statuses(&rt)?;
    segments::segment(&rt)?;
    sectors::sectors(&rt)?;
    home::home(&rt)
}
