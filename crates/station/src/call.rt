// Calls as plain data: a token goes by its sort and its numbers, so forged ones can be written down too.
use kind::kind::Kind;
use ledger::parts::{Message, Numbers, Sort};
use method::bases::Bases;

// What a last pair brings. Of replay's work lists it is lent this many elements and numbers, or all where they have fewer.
#[derive(Clone, Copy)]
pub struct LastPair<'a, K: Kind> {
    pub bases: Bases<'a, K>,
    pub a: u32,
    pub b: u32,
    pub elements: usize,
    pub numbers: usize,
}

#[derive(Clone, Copy)]
pub enum Call<'a, K: Kind> {
    Open(u8, K, K),
    Message(Sort, Numbers, Message<K>),
    Draw(Sort, Numbers, u32),
    Last(Sort, Numbers, LastPair<'a, K>),
    Withdraw(Sort, Numbers),
    Turn,
}
