// The hexadecimal program on paper: what each frame asks and is answered, what each call is to leave (specs/), and what the program writes, whatever
// its reads. Crate `hearing` has the call of one frame, `lines` those of a stream of lines.
#![tactic(auto)]

ghost use Rattle.std.specs.Prelude.{◌≡◌};
ghost use Rattle.brent.specs.declared.Solution.{Solution};
ghost use Rattle.blackscholes.specs.Implied.{outcome_of_implied};
ghost use Rattle.ledger.specs.Book.{Columns};
ghost use Rattle.ledger.specs.Model.{priced};
ghost use Rattle.protocol.specs.Hear.{ledger, said, asked_by, heard_of};

use blackscholes::OptionType;
use hexlines::{Frame, Line};
use ledger::{Book, Heard, Offer, Opening, Terms};
use limits::Refusal;
use std::ops::ControlFlow;

// What a line leads to: the record, and its value or why there is none.
#[derive(Clone, Copy)]
pub struct Said {
    pub book: Book,
    pub answer: Result<f64, Refusal>,
}

impl From<Heard> for Said {
    ghost from_gives = { λ heard told. (c : Columns) → heard_of told c
        ≡ said (ledger heard.book c) (λ (x : Solution). x.volatility) (outcome_of_implied heard.answer) };

    #[tactic(auto, unfolding(crate::specs::Hear::said, brent::specs::Outcome::outcome_of_implied))]
    fn from(heard: Heard) -> Said {
        Said {
            book: heard.book,
            answer: heard
                .answer
                .map(|solution| solution.volatility)
                .map_err(|unsolved| unsolved.refusal),
        }
    }
}

// What a frame asks of the book.
#[derive(Clone, Copy)]
pub enum Asked {
    Open { opening: Opening },
    Quote { offer: Offer },
    Read { strike: f64, expiry: f64 },
}

// An offer of a price, a call's or a put's.
fn priced(kind: OptionType, strike: f64, expiry: f64, price: f64) -> Asked
    ensures { result ≡ Asked.Quote (priced kind strike expiry price) }
{
    Asked::Quote {
        offer: Offer {
            strike,
            expiry,
            terms: Terms::Price {
                kind,
                market: price,
            },
        },
    }
}

impl From<Frame> for Asked {
    ghost from_gives = { λ frame asked. asked ≡ asked_by frame };

    #[tactic(auto, unfolding(crate::specs::Hear::asked_by))]
    fn from(frame: Frame) -> Asked {
        match frame {
            Frame::Open { spot, rate } => Asked::Open {
                opening: Opening { spot, rate },
            },
            Frame::Call {
                strike,
                expiry,
                price,
            } => priced(OptionType::Call, strike, expiry, price),
            Frame::Put {
                strike,
                expiry,
                price,
            } => priced(OptionType::Put, strike, expiry, price),
            Frame::Vol {
                strike,
                expiry,
                volatility,
            } => Asked::Quote {
                offer: Offer {
                    strike,
                    expiry,
                    terms: Terms::Volatility { v: volatility },
                },
            },
            Frame::Read { strike, expiry } => Asked::Read { strike, expiry },
        }
    }
}

// What the program holds between two chunks of its input: the record, and the part of a line that came so far.
#[derive(Clone, Copy)]
pub struct State {
    pub book: Book,
    pub line: Line,
}

// Nothing was heard, nor written to the lent buffer: it has no room for the answers of so many lines.
#[derive(Clone, Copy, Debug, PartialEq, Eq)]
pub struct Short {
    pub lines: usize,
}

// What a chunk leads to, and how many bytes were written to the front of the lent buffer: a count, as std's `read` answers, for who lent the buffer has it.
#[derive(Clone, Copy)]
pub struct Fed {
    pub state: State,
    pub text: Result<usize, Short>,
}

// What a turn of the program leads to: it reads on, or its input has ended.
pub type Step = ControlFlow<Fed, Fed>;
