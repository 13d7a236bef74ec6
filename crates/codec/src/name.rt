// Names in RAD50: a code for each character, three codes to a word, three words to a name.
ghost use Rattle.std.specs.Prelude.{◌≡◌, ◌+◌, ◌<◌, ◌≤◌, length};
ghost use Rattle.codec.specs.Names.{code_of, character, code, rad50_at, unpacked, is_name_character, is_part, is_name, name_of, shown, NameRows, NamesComeBack, WordsComeBack};

// Three words of RAD50: six characters of name, three of type.
#[derive(Clone, Copy, Debug, Default, PartialEq, Eq)]
pub struct Name {
    pub first: u16,
    pub second: u16,
    pub kind: u16,
}

// Nine bytes that are no lawful name.
#[derive(Clone, Copy, Debug, PartialEq, Eq)]
pub struct UnlawfulName;

impl Name {
    // The words of six characters of name and three of type: capital letters, digits and $, with blanks only at the end of
    // either part, and a name part that is not all blank. No `TryFrom`, which would not say that the bytes are characters.
    #[tactic(auto, using(crate::proofs::Parts::name_lawful, crate::proofs::Parts::name_unlawful))]
    pub fn from_bytes(bytes: &[u8; 9]) -> Result<Name, UnlawfulName>
        ensures { result ≡ name_of bytes.now }
    {
        if !is_name(bytes) {
            return Err(UnlawfulName);
        }
        Ok(Name {
            first: rad50_at(bytes, 0),
            second: rad50_at(bytes, 3),
            kind: rad50_at(bytes, 6),
        })
    }

    // The nine characters, six of name and three of type. Code 29 shows as a question mark, and so does the first character
    // of a word of 64,000 or more.
    #[tactic(auto, unfolding(crate::specs::Names::shown, crate::specs::Names::unpacked))]
    pub fn shown(self) -> [u8; 9]
        ensures { result ≡ shown self }
    {
        let [a, b, c] = unpacked(self.first);
        let [d, e, f] = unpacked(self.second);
        let [g, h, i] = unpacked(self.kind);
        [a, b, c, d, e, f, g, h, i]
    }
}

// The code of a character.
fn code_of(c: char) -> Option<u16>
    ensures { result ≡ code_of c }
{
    match c {
        ' ' => Some(0),
        'A'..='Z' => Some(1 + (c as u16 - 'A' as u16)),
        '$' => Some(27),
        '.' => Some(28),
        '0'..='9' => Some(30 + (c as u16 - '0' as u16)),
        _ => None,
    }
}

// The character of a code.
fn character(code: u16) -> u8
    ensures { result ≡ character code }
{
    match code {
        0 => b' ',
        1..=26 => b'A' + (code - 1) as u8,
        27 => b'$',
        28 => b'.',
        30..=39 => b'0' + (code - 30) as u8,
        _ => b'?',
    }
}

// The three characters of a word.
#[tactic(auto, unfolding(crate::specs::Names::unpacked))]
fn unpacked(word: u16) -> [u8; 3]
    ensures { result ≡ unpacked word }
{
    [
        character(word / 1600),
        character(word / 40 % 40),
        character(word % 40),
    ]
}

// Whether a byte may stand in a name: a capital letter, a digit or $.
fn is_name_character(byte: u8) -> bool
    ensures { result ≡ is_name_character byte }
{
    matches!(byte, b'A'..=b'Z' | b'0'..=b'9' | b'$')
}

// Whether the characters of a part of a name may stand in one, with blanks only at its end.
fn is_part(part: &[u8]) -> bool
    ensures { result ≡ is_part part.now }
{
    part.iter()
        .skip_while(|byte| is_name_character(**byte))
        .all(|byte| *byte == b' ')
}

// Whether both parts of a name are lawful, with something in the first.
#[tactic(auto, using(crate::proofs::Parts::led))]
fn is_name(bytes: &[u8; 9]) -> bool
    ensures { result ≡ is_name bytes.now }
{
    bytes[0] != b' ' && is_part(&bytes[..6]) && is_part(&bytes[6..])
}

// The word of the three characters at a place.
fn rad50_at(bytes: &[u8; 9], at: usize) -> u16
    requires { at + 3 ≤ length bytes.now }
    ensures { result ≡ rad50_at bytes.now at }
{
    (code(bytes[at]) * 40 + code(bytes[at + 1])) * 40 + code(bytes[at + 2])
}

// The code of a character that has one, else 0.
#[tactic(auto, unfolding(crate::specs::Names::code))]
fn code(byte: u8) -> u16
    ensures same { result ≡ code byte }
    ensures small { result < 40 }
{
    code_of(byte as char).unwrap_or(0)
}

// Rows of the table of words.
#[tactic(auto, unfolding(crate::specs::Names::code))]
pub fn name_rows()
    ensures { NameRows }
{}

// Lawful names come back from their words.
#[tactic(auto, using(crate::proofs::Spellings::names_come_back))]
pub fn names_come_back()
    ensures { NamesComeBack }
{}

// Words below 64,000 come back from what they show, unless code 29 is among them.
pub fn words_come_back()
    ensures { WordsComeBack }
{}
