// Document 01's rules are definitions: specs/, in document 01's order. Here stand the values that code and rules share as they are.
#![tactic(auto)]

ghost use Rattle.std.specs.Prelude.{◌≡◌};
ghost use Rattle.rules.specs.Coded.{number_of, kind_told};
ghost use Rattle.rules.specs.Desks.{cleared, begun, ended};

// How many there are: relays and desks, both together, message places, a relay's generators or transfers, views in a sequence.
pub const RELAYS: usize = 8;

pub const DESKS: usize = 4;

pub const EVERYONE: usize = RELAYS + DESKS;

pub const PLACES: usize = 256;

pub const SEATS: usize = 8;

pub const VIEWS: usize = views::VIEWS;

// The refusals, as document 01's table of answers numbers them; 0 is "done".
#[derive(Clone, Copy, PartialEq, Eq)]
pub enum Refusal {
    BadWorld = 1,
    BadStep,
    Empty,
    Dead,
    NotNow,
    NotYet,
    Worn,
    NoRoom,
    BadSheet,
}

impl Refusal {
    pub fn number(self) -> u8
        ensures { result ≡ number_of self }
    {
        self as u8
    }
}

// The kinds of steps: "1 JOIN relay, 2 LEAVE relay, 3 TIMER relay, 4 READ desk, 5 WRITE desk value, 6 DELIVER place, 7 DROP place, 8 CRASH who".
#[derive(Clone, Copy, PartialEq, Eq)]
pub enum StepKind {
    Join = 1,
    Leave,
    Timer,
    Read,
    Write,
    Deliver,
    Drop,
    Crash,
}

// BAD STEP: "kind [..] out of range"
impl TryFrom<u8> for StepKind {
    type Error = Refusal;

    ghost try_from_gives = { λ number result. result ≡ kind_told number };

    #[tactic(auto, unfolding(crate::specs::Coded::kind_told))]
    fn try_from(number: u8) -> Result<Self, Refusal> {
        match number {
            1 => Ok(StepKind::Join),
            2 => Ok(StepKind::Leave),
            3 => Ok(StepKind::Timer),
            4 => Ok(StepKind::Read),
            5 => Ok(StepKind::Write),
            6 => Ok(StepKind::Deliver),
            7 => Ok(StepKind::Drop),
            8 => Ok(StepKind::Crash),
            _ => Err(Refusal::BadStep),
        }
    }
}

// A step as a sheet has it: any bytes and any value.
#[derive(Clone, Copy, PartialEq, Eq)]
pub struct Step {
    pub kind: u8,
    pub id: u8,
    pub value: u32,
}

// "phase (idle, read 1, read 2, write 1, write 2)"
#[derive(Clone, Copy, PartialEq, Eq)]
pub enum Phase {
    Idle,
    Read1,
    Read2,
    Write1,
    Write2,
}

// "Desk: alive, view, phase [..], try 0..65,535, value, stamp, who replied, best reply, whether all stamps agreed."
// `tries` is the try, `holds` its stamp and value.
#[derive(Clone, Copy)]
pub struct Desk {
    pub alive: bool,
    pub view: u16,
    pub phase: Phase,
    pub tries: u16,
    pub holds: stamps::Pair,
    pub replied: u8,
    pub best: stamps::Pair,
    pub agreed: bool,
}

impl Desk {
    fn cleared(self, phase: Phase, view: u16, holds: stamps::Pair, tries: u16) -> Desk
        ensures { result ≡ cleared self phase view holds tries }
    {
        Desk {
            alive: self.alive,
            view: view,
            phase: phase,
            tries: tries,
            holds: holds,
            replied: 0,
            best: stamps::fresh(),
            agreed: false,
        }
    }

    // "Each phase begins by adding 1 to the try, clearing the replies": the desk in its next phase. One that has no try left stays as it is.
    pub fn begun(self, phase: Phase, view: u16, holds: stamps::Pair) -> Desk
        ensures { result ≡ begun self phase view holds }
    {
        if 65535 <= self.tries {
            return self;
        }
        self.cleared(phase, view, holds, self.tries + 1)
    }

    // "Idle, only alive, view and try stay."
    pub fn ended(self) -> Desk
        ensures { result ≡ ended self }
    {
        self.cleared(Phase::Idle, self.view, stamps::fresh(), self.tries)
    }
}
