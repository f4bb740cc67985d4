// What the best-first walk is about, and what a node of a lent store shows, whatever numbers stand in it (document 01, 'Search').
#![tactic(auto)]

pub mod look;

// A label: its hash, and its name in two parts.
#[derive(Clone, Copy)]
pub struct Label<'a> {
    pub hash: u64,
    pub first: &'a [u8],
    pub second: &'a [u8],
}

// What a search is about: every vector, those with a label, or those with each of two.
#[derive(Clone, Copy)]
pub enum Wanted<'a> {
    Everything,
    Label(Label<'a>),
    Both(Label<'a>, Label<'a>),
}

// What a walk or a search gives: how many hits it found or wrote to the answer lists, how many nodes it opened, and whether no node waited.
#[derive(Clone, Copy)]
pub struct Searched {
    pub hits: usize,
    pub opened: usize,
    pub whole: bool,
}

// The store has a number that no call writes there.
#[derive(Clone, Copy)]
pub struct Damaged;
