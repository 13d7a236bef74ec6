// A field of a run file: a tag byte, a two-byte length, low byte first, and a body.
ghost use Rattle.std.specs.Prelude.{◌≡◌, ℕ, ◌+◌, ◌≤◌, Bool, length, drop};
ghost use Rattle.std.specs.Iterator.{YieldsFirstBy, item_count};
ghost use Rattle.std.specs.Result.{result_ok};
ghost use Rattle.codec.specs.Words.{word_at};
ghost use Rattle.runfile.specs.Orders.{ask_of, name_at, order_of, decoded};
ghost use Rattle.runfile.specs.Pieces.{piece_of, next_piece};
ghost use Rattle.runfile.specs.Items.{item_of, items};

use crate::fault::FieldFault;
use codec::words::word_at;

// The run ended inside a field.
#[derive(Clone, Copy, Debug, PartialEq, Eq)]
pub struct CutShort;

// One field as it stands in the run, and what follows it.
#[derive(Clone, Copy)]
pub struct Part<'a> {
    pub tag: u8,
    pub body: &'a [u8],
    pub rest: &'a [u8],
}

// The first field of `run`, or none at its end.
pub fn next_field(run: &[u8]) -> Result<Option<Part<'_>>, CutShort>
    ensures { piece_of result ≡ next_piece run.now }
{
    match run {
        [] => Ok(None),
        [tag, low, high, rest @ ..] => {
            let size = usize::from(u16::from_le_bytes([*low, *high]));
            if size > rest.len() {
                return Err(CutShort);
            }
            let (body, rest) = rest.split_at(size);
            Ok(Some(Part {
                tag: *tag,
                body,
                rest,
            }))
        }
        _ => Err(CutShort),
    }
}

// The fields of a run, one after another. One that is cut short is the last.
#[derive(Drop)]
pub struct Fields<'a> {
    rest: &'a [u8],
}

impl<'a> Fields<'a> {
    pub fn of(run: &'a [u8]) -> Fields<'a>
        ensures { result.rest ≡ run.entry }
    {
        Fields { rest: run }
    }
}

impl<'a> Iterator for Fields<'a> {
    type Item = Result<Part<'a>, CutShort>;

    ghost next_gives = { YieldsFirstBy item_of (λ s. items s.rest.now) };

    ghost remaining = { item_count (λ s. items s.rest.now) };

    #[tactic(auto, using(crate::proofs::Items::items_field, crate::proofs::Items::items_short, crate::proofs::Items::items_none))]
    fn next(&mut self) -> Option<Result<Part<'a>, CutShort>> {
        let field = next_field(self.rest).transpose()?;
        self.rest = field.map_or(&[], |part| part.rest);
        Some(field)
    }
}

// How many blocks a new file asks for: the largest empty, half of it, or a number from 1.
#[derive(Clone, Copy)]
pub enum Ask {
    Whole,
    Half,
    Exact(u16),
}

// A word below -1, which means no ask.
#[derive(Clone, Copy, Debug, PartialEq, Eq)]
pub struct NoAsk;

// The ask that a word means.
impl TryFrom<i16> for Ask {
    type Error = NoAsk;

    ghost try_from_gives = { λ word r. result_ok r ≡ ask_of word };

    fn try_from(word: i16) -> Result<Ask, NoAsk> {
        match word {
            -1 => Ok(Ask::Whole),
            0 => Ok(Ask::Half),
            1.. => Ok(Ask::Exact(word as u16)),
            _ => Err(NoAsk),
        }
    }
}

// What STORE asks for; an ask outside its range is none.
#[derive(Clone, Copy)]
pub struct Store<'a> {
    pub name: [u8; 9],
    pub ask: Option<Ask>,
    pub date: u16,
    pub content: &'a [u8],
}

#[derive(Clone, Copy)]
pub enum Field<'a> {
    Initialize(u8),
    Create {
        name: [u8; 9],
        blocks: u16,
        date: u16,
    },
    Store(Store<'a>),
    Write {
        name: [u8; 9],
        block: u16,
        bytes: &'a [u8],
    },
    Copy {
        old: [u8; 9],
        new: [u8; 9],
    },
    Delete([u8; 9]),
    Rename {
        old: [u8; 9],
        new: [u8; 9],
    },
    Protect([u8; 9]),
    Unprotect([u8; 9]),
    Mount([u8; 9]),
    Dismount,
    Squeeze,
}

fn name_at(body: &[u8], at: usize) -> [u8; 9]
    requires { at + 9 ≤ length body.now }
    ensures { result ≡ name_at body.now at }
{
    let mut name = [0; 9];
    name.copy_from_slice(&body[at..at + 9]);
    name
}

fn after(body: &[u8], at: usize) -> &[u8]
    requires { at ≤ length body.now }
    ensures { result.now ≡ drop at body.now }
{
    &body[at..]
}

// The field with this tag and this body. Two parameters, since a program may ask of any tag and body, in a run or not.
pub fn decode(tag: u8, body: &[u8]) -> Result<Field<'_>, FieldFault>
    ensures { order_of result ≡ decoded tag body.now }
{
    match tag {
        1 if body.len() == 1 => Ok(Field::Initialize(body[0])),
        2 if body.len() == 13 => Ok(Field::Create {
            name: name_at(body, 0),
            blocks: word_at(body, 9),
            date: word_at(body, 11),
        }),
        3 if body.len() >= 13 => Ok(Field::Store(Store {
            name: name_at(body, 0),
            ask: Ask::try_from(word_at(body, 9).cast_signed()).ok(),
            date: word_at(body, 11),
            content: after(body, 13),
        })),
        4 if body.len() == 523 => Ok(Field::Write {
            name: name_at(body, 0),
            block: word_at(body, 9),
            bytes: after(body, 11),
        }),
        5 if body.len() == 18 => Ok(Field::Copy {
            old: name_at(body, 0),
            new: name_at(body, 9),
        }),
        6 if body.len() == 9 => Ok(Field::Delete(name_at(body, 0))),
        7 if body.len() == 18 => Ok(Field::Rename {
            old: name_at(body, 0),
            new: name_at(body, 9),
        }),
        8 if body.len() == 9 => Ok(Field::Protect(name_at(body, 0))),
        9 if body.len() == 9 => Ok(Field::Unprotect(name_at(body, 0))),
        10 if body.len() == 9 => Ok(Field::Mount(name_at(body, 0))),
        11 if body.is_empty() => Ok(Field::Dismount),
        12 if body.is_empty() => Ok(Field::Squeeze),
        1..=12 => Err(FieldFault::WrongLength),
        _ => Err(FieldFault::UnknownTag),
    }
}
