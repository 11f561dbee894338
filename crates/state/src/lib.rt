// The world's parts as the code holds them, by value. What each means is in specs/Meaning.antt.
#![tactic(auto)]

use stamps::Pair;
use views::Sequence;

// The last sequence heard from each of the eight.
#[derive(Clone, Copy)]
pub struct Notes {
    pub of: [Sequence; 8],
}

#[derive(Clone, Copy)]
pub struct Generator {
    pub view: u16,
    pub own: Sequence,
    pub converged: Sequence,
    pub raised: Sequence,
    pub proposals: Notes,
    pub convergences: Notes,
}

#[derive(Clone, Copy)]
pub struct Transfer {
    pub old: u16,
    pub new: u16,
    pub sequence: Sequence,
    pub senders: u8,
    pub best: Pair,
    pub gathered: u16,
}

// A relay without its generators and transfers.
#[derive(Clone, Copy)]
pub struct Head {
    pub alive: bool,
    pub entered: bool,
    pub active: bool,
    pub view: u16,
    pub known: u16,
    pub pending: u16,
    pub holds: Pair,
}

// What a message says: a field for everything that some kind says; a field that its own kind does not say means nothing; `messages::plain` makes it zero.
// (The kind is a number and no name: what is promised of a body is promised of every number, by `messages::plain`, `relay::hears`, `desk::hears` and `image`.)
#[derive(Clone, Copy)]
pub struct Body {
    pub kind: u8,
    pub first: u16,
    pub second: u16,
    pub tries: u16,
    pub sequence: Sequence,
    pub pair: Pair,
    pub updates: u16,
}

#[derive(Clone, Copy)]
pub struct Message {
    pub from: u8,
    pub to: u8,
    pub body: Body,
}

// A body, and the set of its receivers; none where nothing is sent. (No option: a rule may also send to the members of a view that has none.)
#[derive(Clone, Copy)]
pub struct Sending {
    pub body: Body,
    pub receivers: u16,
}

// The most that one rule sends.
pub const MOST: usize = 2;

// What a rule sends, in its order; entries that it does not use are sent to nobody.
#[derive(Clone, Copy)]
pub struct Sendings {
    pub of: [Sending; MOST],
}

#[derive(Clone, Copy)]
pub enum Event {
    Nothing,
    Opened(u16),
    ReadDone(Pair),
    WriteDone(Pair),
}

// A generator after a rule, and what it sends.
#[derive(Clone, Copy)]
pub struct Turn {
    pub next: Generator,
    pub sends: Sendings,
}

// The part of a relay that one rule can see: its head, and at most one generator and one transfer.
#[derive(Clone, Copy)]
pub struct Part {
    pub head: Head,
    pub generator: Option<Generator>,
    pub transfer: Option<Transfer>,
}

// What one relay, or one desk, does about one thing that is put to it: what it then is, what it sends, and the event. A rule answers this, or a refusal.
#[derive(Clone, Copy)]
pub struct Plan<T> {
    pub next: T,
    pub sends: Sendings,
    pub event: Event,
}
