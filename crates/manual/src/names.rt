// Characters and words in RAD50.
use crate::paper::{Octal, Quoted, heading};
use codec::name::Name;
use std::io;

// Three characters, as the first of a name. One function with `encode` would be no plainer: this prints one word, and its number.
fn pack(rt: &HostRuntime, characters: &[u8; 3]) -> io::Result<()> {
    let [a, b, c] = *characters;
    let text = Quoted(characters);
    match Name::from_bytes(&[a, b, c, b' ', b' ', b' ', b' ', b' ', b' ']) {
        Ok(name) => {
            let number = name.first;
            let word = Octal(number);
            println!(rt; "  {text}{:31}word {word}, which is {number}", "")
        }
        Err(_) => println!(rt; "  {text}{:31}refused", ""),
    }
}

// The three characters of a word.
fn unpack(rt: &HostRuntime, number: u16, note: &str) -> io::Result<()> {
    let name = Name {
        first: number,
        second: 0,
        kind: 0,
    };
    let [a, b, c, ..] = name.shown();
    let word = Octal(number);
    println!(rt; "  word {word} {note:<24}{}", Quoted(&[a, b, c]))
}

pub(crate) fn words(rt: &HostRuntime) -> io::Result<()> {
    heading(rt, "RAD50: three characters to a word")?;
    pack(rt, b"X2B")?;
    pack(rt, b"MAC")?;
    pack(rt, b"999")?;
    unpack(rt, 0o115402, "")?;
    unpack(rt, 20_843, "")?;
    unpack(rt, 63_999, "")?;
    unpack(rt, 29, "code 29 last")?;
    unpack(rt, 46_400, "code 29 first")?;
    unpack(rt, 64_000, "no three codes")
}

// Nine characters, to words.
fn encode(rt: &HostRuntime, characters: &[u8; 9], note: &str) -> io::Result<()> {
    let text = Quoted(characters);
    match Name::from_bytes(characters) {
        Ok(name) => {
            let first = Octal(name.first);
            let second = Octal(name.second);
            let kind = Octal(name.kind);
            println!(rt; "  {text} {note:<24}{first} {second} {kind}")
        }
        Err(_) => println!(rt; "  {text} {note:<24}refused"),
    }
}

// Three words, to characters.
fn decode(rt: &HostRuntime, first: u16, second: u16, kind: u16) -> io::Result<()> {
    let name = Name {
        first,
        second,
        kind,
    };
    let first = Octal(first);
    let second = Octal(second);
    let kind = Octal(kind);
    println!(rt;
        "  {first} {second} {kind}{:16}{}",
        "",
        Quoted(&name.shown())
    )
}

pub(crate) fn names(rt: &HostRuntime) -> io::Result<()> {
    heading(
        rt,
        "RAD50: nine characters to a name, six and then three of type",
    )?;
    encode(rt, b"RT11SJSYS", "")?;
    encode(rt, b"DX    SYS", "")?;
    encode(rt, b"A        ", "no type")?;
    encode(rt, b"$9    $$$", "dollar signs")?;
    encode(rt, b"rt11sjsys", "lower case")?;
    encode(rt, b"RT 1SJSYS", "a blank inside the name")?;
    encode(rt, b"RT11SJS S", "a blank inside the type")?;
    encode(rt, b" T11SJSYS", "a blank first")?;
    encode(rt, b"      SYS", "no name")?;
    encode(rt, b"         ", "all blank")?;
    encode(rt, b"RT11.SSYS", "a point")?;
    decode(rt, 0o71677, 0o142302, 0o75273)?;
    decode(rt, 0o16300, 0, 0o75273)?;
    decode(rt, 0o325, 0o63471, 0o23364)
}
