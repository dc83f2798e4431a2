// One line heard by the quote book: what the book answers to its frame.
#![tactic(auto)]

ghost use Rattle.std.specs.Prelude.{◌≡◌};
ghost use Rattle.book.specs.Lent.{columns_held, SameColumns};
ghost use Rattle.ledger.specs.Claim.{Ledger};
ghost use Rattle.protocol.specs.Hear.{ledger, opens, reads, answers, hears, heard_of};

use admission::SurfaceBuffers;
use book::QuoteColumns;
use hexlines::Frame;
use ledger::{Book, Opening};
use limits::Refusal;
use protocol::{Asked, Said};
use readings::Surface;

#[tactic(auto, unfolding(protocol::specs::Hear::said, protocol::specs::Hear::opens, limits::proofs::Float::of_bits, limits::proofs::Float::round))]
fn open_book(opening: Opening) -> Said
    ensures { (l : Ledger) → heard_of result l.columns ≡ opens l opening }
{
    match book::open(opening) {
        Ok(book) => Said {
            book,
            answer: Ok(0.0),
        },
        Err(unopened) => Said {
            book: unopened.book,
            answer: Err(unopened.refusal),
        },
    }
}

// Builds from nothing, and reads what was built. Strike and expiry are two floats here and in a frame, as the Rust's `interpolate` takes them.
fn read_surface(
    book: Book,
    columns: &QuoteColumns<'_>,
    strike: f64,
    expiry: f64,
) -> Result<f64, Refusal>
    ensures { heard_of (record { book = book; answer = result }) (columns_held columns.now)
        ≡ reads (ledger book (columns_held columns.now)) strike expiry }
{
    let mut strike_axis = [0.0f64; 64];
    let mut expiry_axis = [0.0f64; 32];
    let mut grid = [0.0f64; 2048];
    let mut counts = [0u64; 2048];
    let mut buffers = SurfaceBuffers {
        strike_axis: &mut strike_axis,
        expiry_axis: &mut expiry_axis,
        grid: &mut grid,
        counts: &mut counts,
    };
    let lengths = book::build(book, &columns.quotes(), &mut buffers)?;
    let surface = Surface {
        strike_axis: &strike_axis,
        expiry_axis: &expiry_axis,
        grid: &grid,
        strikes: lengths.strikes,
        expiries: lengths.expiries,
    };
    surface.interpolate(strike, expiry)
}

// What the book answers. Only an offer that is kept writes to the columns.
#[tactic(auto, unfolding(protocol::specs::Hear::answers))]
pub fn answer(book: Book, asked: Asked, columns: &mut QuoteColumns<'_>) -> Said
    ensures same_memory { SameColumns columns.new columns.old }
    ensures answers { heard_of result (columns_held columns.new) ≡ answers (ledger book (columns_held columns.old)) asked }
{
    match asked {
        Asked::Open { opening } => open_book(opening),
        Asked::Quote { offer } => Said::from(book::offer(book, offer, columns)),
        Asked::Read { strike, expiry } => Said {
            book,
            answer: read_surface(book, columns, strike, expiry),
        },
    }
}

// What a line is answered: 21 where it has no frame.
#[tactic(auto, unfolding(protocol::specs::Hear::hears))]
pub fn hear(book: Book, frame: Option<Frame>, columns: &mut QuoteColumns<'_>) -> Said
    ensures same_memory { SameColumns columns.new columns.old }
    ensures hears { heard_of result (columns_held columns.new) ≡ hears (ledger book (columns_held columns.old)) frame }
{
    match frame {
        Some(frame) => answer(book, frame.into(), columns),
        None => Said {
            book,
            answer: Err(Refusal::Malformed),
        },
    }
}
