// How words and bytes are printed.
use codec::words::word_at;
use std::{fmt, io};

// A word in octal, with six digits.
#[derive(Drop)]
pub(crate) struct Octal(pub(crate) u16);

impl fmt::Display for Octal {
    fn fmt<W: fmt::Write>(&self, f: &mut fmt::Formatter<W>) -> fmt::Result {
        let word = self.0;
        write!(f, "{word:06o}")
    }
}

// Bytes as the words that they make, with a blank between two. An odd last byte is left out.
#[derive(Drop)]
pub(crate) struct Words<'a>(pub(crate) &'a [u8]);

impl fmt::Display for Words<'_> {
    fn fmt<W: fmt::Write>(&self, f: &mut fmt::Formatter<W>) -> fmt::Result {
        for (i, pair) in self.0.chunks_exact(2).enumerate() {
            if i > 0 {
                f.write_str(" ")?;
            }
            let word = Octal(word_at(pair, 0));
            write!(f, "{word}")?;
        }
        Ok(())
    }
}

// Bytes as text.
#[derive(Drop)]
pub(crate) struct Text<'a>(pub(crate) &'a [u8]);

impl fmt::Display for Text<'_> {
    fn fmt<W: fmt::Write>(&self, f: &mut fmt::Formatter<W>) -> fmt::Result {
        for &byte in self.0 {
            f.write_char(byte as char)?;
        }
        Ok(())
    }
}

// Bytes as text, in quotation marks.
#[derive(Drop)]
pub(crate) struct Quoted<'a>(pub(crate) &'a [u8]);

impl fmt::Display for Quoted<'_> {
    fn fmt<W: fmt::Write>(&self, f: &mut fmt::Formatter<W>) -> fmt::Result {
        let text = Text(self.0);
        write!(f, "\"{text}\"")
    }
}

// A blank line, and what the examples below it are about.
pub(crate) fn heading(rt: &HostRuntime, about: &str) -> io::Result<()> {
    println!(rt; "\n{about}")
}

// An example: what is tried, and what came out.
pub(crate) fn line(rt: &HostRuntime, tried: &str, out: impl fmt::Display + Drop) -> io::Result<()> {
    println!(rt; "  {tried:<36}{out}")
}
