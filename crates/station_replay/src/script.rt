// The lines of a script: what they say, and the calls that they make.
ghost use Rattle.station_replay.specs.Names.{kind_word, method_word, Named, NamedIf};
ghost use Rattle.ledger.specs.Printed.{sort_text};

use kind::bytes::cut;
use kind::fault::KindFault;
use kind::kind::Kind;
use ledger::parts::{Message, Numbers, Sort};
use method::bases::Bases;
use station::call::{Call, LastPair};
use text::words::Words;

// A word that is not one of those asked for.
#[derive(Clone, Copy, Debug, PartialEq, Eq)]
pub struct OtherWord;

#[derive(Clone, Copy, Debug, PartialEq, Eq)]
pub enum KindName {
    Clear,
    Residue,
}

impl TryFrom<&[u8]> for KindName {
    type Error = OtherWord;

    ghost try_from_gives = { λ word r. Named kind_word word.now r };

    fn try_from(word: &[u8]) -> Result<KindName, OtherWord> {
        match word {
            b"clear" => Ok(KindName::Clear),
            b"residue" => Ok(KindName::Residue),
            _ => Err(OtherWord),
        }
    }
}

#[derive(Clone, Copy, Debug, PartialEq, Eq)]
pub enum MethodName {
    Halving,
    Multiplying,
}

impl TryFrom<&[u8]> for MethodName {
    type Error = OtherWord;

    ghost try_from_gives = { λ word r. Named method_word word.now r };

    fn try_from(word: &[u8]) -> Result<MethodName, OtherWord> {
        match word {
            b"halving" => Ok(MethodName::Halving),
            b"multiplying" => Ok(MethodName::Multiplying),
            _ => Err(OtherWord),
        }
    }
}

// The first line: the station's number, the kind and the method.
#[derive(Clone, Copy)]
pub struct Header {
    pub number: u16,
    pub kind: KindName,
    pub method: MethodName,
}

impl Header {
    // None where the line is no first line.
    pub fn read(line: &[u8]) -> Option<Header> {
        let mut words = Words::from(line);
        if words.next()? != b"station".as_slice() {
            return None;
        }
        let number = words.short()?;
        let kind = KindName::try_from(words.next()?).ok()?;
        let method = MethodName::try_from(words.next()?).ok()?;
        words.end()?;
        Some(Header {
            number,
            kind,
            method,
        })
    }
}

// The numbers of a last pair: a and b, how many entries G and H have, and how many of the work lists are lent.
#[derive(Clone, Copy)]
pub struct PairNumbers {
    pub a: u32,
    pub b: u32,
    pub g: u16,
    pub h: u16,
    pub elements: u16,
    pub numbers: u16,
}

// A call as its line says it, elements and lists by number.
#[derive(Clone, Copy)]
pub enum Said {
    Open(u8, u32, u32),
    Message(Sort, Numbers, Message<u32>),
    Draw(Sort, Numbers, u32),
    Last(Sort, Numbers, PairNumbers),
    Withdraw(Sort, Numbers),
    Turn,
}

// What prints as this word. A function, since the sort of a token is the ledger's own type.
fn sort_of(word: &[u8]) -> Option<Sort>
    ensures { NamedIf sort_text word.now result }
{
    match word {
        b"waiting" => Some(Sort::Waiting),
        b"heard" => Some(Sort::Heard),
        b"closing" => Some(Sort::Closing),
        _ => None,
    }
}

fn read_token(words: &mut Words) -> Option<(Sort, Numbers)> {
    let sort = sort_of(words.next()?)?;
    let numbers = Numbers {
        station: words.short()?,
        case: words.number()?,
        rounds: words.byte()?,
    };
    Some((sort, numbers))
}

fn read_message(words: &mut Words) -> Option<Message<u32>> {
    Some(Message {
        l1: words.number()?,
        l2: words.number()?,
        r1: words.number()?,
        r2: words.number()?,
    })
}

fn read_pair(words: &mut Words) -> Option<PairNumbers> {
    Some(PairNumbers {
        a: words.number()?,
        b: words.number()?,
        g: words.short()?,
        h: words.short()?,
        elements: words.short()?,
        numbers: words.short()?,
    })
}

// What stands behind a verb.
fn read_rest(verb: &[u8], words: &mut Words) -> Option<Said> {
    match verb {
        b"open" => Some(Said::Open(words.byte()?, words.number()?, words.number()?)),
        b"turn" => Some(Said::Turn),
        _ => {
            let (sort, token) = read_token(words)?;
            match verb {
                b"message" => Some(Said::Message(sort, token, read_message(words)?)),
                b"draw" => Some(Said::Draw(sort, token, words.number()?)),
                b"last" => Some(Said::Last(sort, token, read_pair(words)?)),
                b"withdraw" => Some(Said::Withdraw(sort, token)),
                _ => None,
            }
        }
    }
}

fn message_of<K: Kind<Entry = u32>>(m: Message<u32>) -> Result<Message<K>, KindFault> {
    Ok(Message {
        l1: K::from_entry(m.l1)?,
        l2: K::from_entry(m.l2)?,
        r1: K::from_entry(m.r1)?,
        r2: K::from_entry(m.r2)?,
    })
}

impl Said {
    // None where the line is no call.
    pub fn read(line: &[u8]) -> Option<Said> {
        let mut words = Words::from(line);
        let said = read_rest(words.next()?, &mut words)?;
        words.end()?;
        Some(said)
    }

    // The call that a line makes, with lists from the front of the bench list and the base for K.
    // A number of no element is refused by 11.
    pub fn call<'a, K: Kind<Entry = u32>>(
        self,
        bench: &'a [u32],
    ) -> Result<Call<'a, K>, KindFault> {
        Ok(match self {
            Said::Open(k, z1, z2) => Call::Open(k, K::from_entry(z1)?, K::from_entry(z2)?),
            Said::Message(sort, token, m) => Call::Message(sort, token, message_of::<K>(m)?),
            Said::Draw(sort, token, c) => Call::Draw(sort, token, c),
            Said::Last(sort, token, p) => {
                let (g, _) = cut(bench, usize::from(p.g));
                let (h, _) = cut(bench, usize::from(p.h));
                let pair = LastPair {
                    bases: Bases {
                        g,
                        h,
                        key: K::base(),
                    },
                    a: p.a,
                    b: p.b,
                    elements: usize::from(p.elements),
                    numbers: usize::from(p.numbers),
                };
                Call::Last(sort, token, pair)
            }
            Said::Withdraw(sort, token) => Call::Withdraw(sort, token),
            Said::Turn => Call::Turn,
        })
    }
}
