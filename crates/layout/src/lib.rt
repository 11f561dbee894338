// A world in bytes: where each field of a row stands, and how wide each row is, as specs/Layout.antt has it. A row's fields in their order, each where the one
// before it ends.
#![tactic(auto)]

ghost use Rattle.std.specs.Prelude.{◌≡◌};
ghost use Rattle.layout.specs.Kinds.{number_of_kind, kind_of};

// ---- How wide one field is: a flag, a small number or a set of relays; a view, a try or a count; a value

pub const BYTE: u8 = 1;

pub const U16: u8 = 2;

pub const U32: u8 = 4;

pub const BYTE_WIDTH: usize = BYTE as usize;

pub const U16_WIDTH: usize = U16 as usize;

pub const U32_WIDTH: usize = U32 as usize;

// ---- A sequence: "at most 15" views, and how many there are

pub const SEQUENCE_VIEWS: usize = 0;

pub const SEQUENCE_COUNT: usize = SEQUENCE_VIEWS + rules::VIEWS * U16_WIDTH;

pub const SEQUENCE_WIDTH: usize = SEQUENCE_COUNT + BYTE_WIDTH;

// ---- A stamp and its value

pub const PAIR_COUNT: usize = 0;

pub const PAIR_DESK: usize = PAIR_COUNT + U16_WIDTH;

pub const PAIR_VALUE: usize = PAIR_DESK + BYTE_WIDTH;

pub const PAIR_WIDTH: usize = PAIR_VALUE + U32_WIDTH;

// ---- A relay's head: alive, entered, active, view, known view, pending updates, stamp and value, zeros

pub const HEAD_ALIVE: usize = 0;

pub const HEAD_ENTERED: usize = HEAD_ALIVE + BYTE_WIDTH;

pub const HEAD_ACTIVE: usize = HEAD_ENTERED + BYTE_WIDTH;

pub const HEAD_VIEW: usize = HEAD_ACTIVE + BYTE_WIDTH;

pub const HEAD_KNOWN: usize = HEAD_VIEW + U16_WIDTH;

pub const HEAD_PENDING: usize = HEAD_KNOWN + U16_WIDTH;

pub const HEAD_HOLDS: usize = HEAD_PENDING + U16_WIDTH;

pub const HEAD_ZEROS: usize = HEAD_HOLDS + PAIR_WIDTH;

pub const HEAD_WIDTH: usize = 64;

pub const HEAD_REST: u8 = (HEAD_WIDTH - HEAD_ZEROS) as u8;

// ---- A generator: view, own, converged and raised sequence, the eight's proposals and convergences, a zero

pub const NOTES_WIDTH: usize = rules::RELAYS * SEQUENCE_WIDTH;

pub const GENERATOR_VIEW: usize = 0;

pub const GENERATOR_OWN: usize = GENERATOR_VIEW + U16_WIDTH;

pub const GENERATOR_CONVERGED: usize = GENERATOR_OWN + SEQUENCE_WIDTH;

pub const GENERATOR_RAISED: usize = GENERATOR_CONVERGED + SEQUENCE_WIDTH;

pub const GENERATOR_PROPOSALS: usize = GENERATOR_RAISED + SEQUENCE_WIDTH;

pub const GENERATOR_CONVERGENCES: usize = GENERATOR_PROPOSALS + NOTES_WIDTH;

pub const GENERATOR_ZEROS: usize = GENERATOR_CONVERGENCES + NOTES_WIDTH;

pub const GENERATOR_WIDTH: usize = 592;

pub const GENERATOR_REST: usize = GENERATOR_WIDTH - GENERATOR_ZEROS;

// ---- A transfer: old view, new view, sequence, who has sent state, best stamp and value, updates gathered, zeros

pub const TRANSFER_OLD: usize = 0;

pub const TRANSFER_NEW: usize = TRANSFER_OLD + U16_WIDTH;

pub const TRANSFER_SEQUENCE: usize = TRANSFER_NEW + U16_WIDTH;

pub const TRANSFER_SENDERS: usize = TRANSFER_SEQUENCE + SEQUENCE_WIDTH;

pub const TRANSFER_BEST: usize = TRANSFER_SENDERS + BYTE_WIDTH;

pub const TRANSFER_GATHERED: usize = TRANSFER_BEST + PAIR_WIDTH;

pub const TRANSFER_ZEROS: usize = TRANSFER_GATHERED + U16_WIDTH;

pub const TRANSFER_WIDTH: usize = 80;

pub const TRANSFER_REST: u8 = (TRANSFER_WIDTH - TRANSFER_ZEROS) as u8;

// ---- A relay: its head, 8 generators, 8 transfers

pub const GENERATORS_WIDTH: usize = rules::SEATS * GENERATOR_WIDTH;

pub const TRANSFERS_WIDTH: usize = rules::SEATS * TRANSFER_WIDTH;

pub const RELAY_HEAD: usize = 0;

pub const RELAY_GENERATORS: usize = RELAY_HEAD + HEAD_WIDTH;

pub const RELAY_TRANSFERS: usize = RELAY_GENERATORS + GENERATORS_WIDTH;

pub const RELAY_WIDTH: usize = RELAY_TRANSFERS + TRANSFERS_WIDTH;

// ---- A desk: alive, phase, view, try, stamp and value, who replied, best reply, agreed, zeros

pub const DESK_ALIVE: usize = 0;

pub const DESK_PHASE: usize = DESK_ALIVE + BYTE_WIDTH;

pub const DESK_VIEW: usize = DESK_PHASE + BYTE_WIDTH;

pub const DESK_TRIES: usize = DESK_VIEW + U16_WIDTH;

pub const DESK_HOLDS: usize = DESK_TRIES + U16_WIDTH;

pub const DESK_REPLIED: usize = DESK_HOLDS + PAIR_WIDTH;

pub const DESK_BEST: usize = DESK_REPLIED + BYTE_WIDTH;

pub const DESK_AGREED: usize = DESK_BEST + PAIR_WIDTH;

pub const DESK_ZEROS: usize = DESK_AGREED + BYTE_WIDTH;

pub const DESK_WIDTH: usize = 64;

pub const DESK_REST: u8 = (DESK_WIDTH - DESK_ZEROS) as u8;

// ---- A message: kind (0: the place is free), sender, receiver, two views, try, sequence, stamp and value, updates, zeros

pub const MESSAGE_KIND: usize = 0;

pub const MESSAGE_FROM: usize = MESSAGE_KIND + BYTE_WIDTH;

pub const MESSAGE_TO: usize = MESSAGE_FROM + BYTE_WIDTH;

pub const MESSAGE_FIRST: usize = MESSAGE_TO + BYTE_WIDTH;

pub const MESSAGE_SECOND: usize = MESSAGE_FIRST + U16_WIDTH;

pub const MESSAGE_TRIES: usize = MESSAGE_SECOND + U16_WIDTH;

pub const MESSAGE_SEQUENCE: usize = MESSAGE_TRIES + U16_WIDTH;

pub const MESSAGE_PAIR: usize = MESSAGE_SEQUENCE + SEQUENCE_WIDTH;

pub const MESSAGE_UPDATES: usize = MESSAGE_PAIR + PAIR_WIDTH;

pub const MESSAGE_ZEROS: usize = MESSAGE_UPDATES + U16_WIDTH;

pub const MESSAGE_WIDTH: usize = 80;

pub const MESSAGE_REST: u8 = (MESSAGE_WIDTH - MESSAGE_ZEROS) as u8;

// ---- The kinds of messages, as a row numbers them

// The place is free.
pub const NO_KIND: u8 = 0;

#[derive(Clone, Copy, PartialEq, Eq)]
pub enum MessageKind {
    Request = 1,
    View,
    Proposal,
    Converged,
    Install,
    State,
    Get,
    Put,
    ViewReply,
    PairReply,
    Ack,
}

// The least and the greatest of the kinds' numbers.
pub const FIRST_KIND: u8 = MessageKind::Request as u8;

pub const LAST_KIND: u8 = MessageKind::Ack as u8;

impl MessageKind {
    pub fn number(self) -> u8
        ensures { result ≡ number_of_kind self }
    {
        self as u8
    }
}

// A number that is no kind is an acknowledgement's.
impl From<u8> for MessageKind {
    ghost from_gives = { λ number result. result ≡ kind_of number };

    #[tactic(auto, unfolding(crate::specs::Kinds::kind_of))]
    fn from(number: u8) -> Self {
        match number {
            1 => MessageKind::Request,
            2 => MessageKind::View,
            3 => MessageKind::Proposal,
            4 => MessageKind::Converged,
            5 => MessageKind::Install,
            6 => MessageKind::State,
            7 => MessageKind::Get,
            8 => MessageKind::Put,
            9 => MessageKind::ViewReply,
            10 => MessageKind::PairReply,
            _ => MessageKind::Ack,
        }
    }
}

// ---- "One lent buffer of exactly 65,536 bytes": 8 relays, 4 desks, 256 messages, zeros

pub const WORLD_RELAYS: usize = 0;

pub const WORLD_DESKS: usize = WORLD_RELAYS + rules::RELAYS * RELAY_WIDTH;

pub const WORLD_PLACES: usize = WORLD_DESKS + rules::DESKS * DESK_WIDTH;

pub const WORLD_ZEROS: usize = WORLD_PLACES + rules::PLACES * MESSAGE_WIDTH;

pub const WORLD_WIDTH: usize = 65536;

pub const WORLD_REST: usize = WORLD_WIDTH - WORLD_ZEROS;
