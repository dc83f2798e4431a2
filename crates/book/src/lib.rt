// The quote book: a record by value and three lent columns. Offers are heard one at a time; a surface is built of what was kept.
#![tactic(auto)]

ghost use Rattle.std.specs.Prelude.{◌≡◌};
ghost use Rattle.limits.specs.Refusals.{number_in};
ghost use Rattle.chart.specs.Build.{outcome};
ghost use Rattle.ledger.specs.Model.{bsm};
ghost use Rattle.ledger.specs.Book.{fresh, zero_book, open_refusal, opened, outcome_of_opening, is_short, filed};
ghost use Rattle.ledger.specs.Build.{BuildsBook};
ghost use Rattle.ledger.specs.Calls.{Offers, Within};
ghost use Rattle.admission.specs.Lent.{columns_in, buffers_in, SameBuffers};
ghost use Rattle.book.specs.Lent.{columns_held, SameColumns};

use admission::{Quotes, SurfaceBuffers};
use chart::Lengths;
use ledger::{Book, Heard, Offer, Opening, Unopened};
use limits::{Refusal, check};

// ---- the opening

// No `From`: a record is made of an opening that was checked.
fn fresh(opening: Opening) -> Book
    ensures { result ≡ fresh opening }
{
    Book {
        spot: opening.spot,
        rate: opening.rate,
        ..Book::default()
    }
}

// The record of zeros.
#[tactic(auto, unfolding(limits::proofs::Float::of_bits, limits::proofs::Float::round))]
pub fn zero_book() -> Book
    ensures { result ≡ zero_book }
{
    Book::default()
}

// 6 and 9.
#[tactic(auto, unfolding(ledger::specs::Book::open_refusal, limits::specs::Checks::first))]
fn check_opening(opening: Opening) -> Result<(), Refusal>
    ensures { number_in result ≡ open_refusal opening }
{
    check(limits::is_spot(opening.spot), Refusal::Spot)?;
    check(limits::is_rate(opening.rate), Refusal::Rate)
}

// Checks 6 and 9. A refused opening returns a record of zeros.
#[tactic(auto, unfolding(ledger::specs::Book::opened, limits::specs::Outcome::answered))]
pub fn open(opening: Opening) -> Result<Book, Unopened>
    ensures { outcome_of_opening result ≡ opened opening }
{
    check_opening(opening)?;
    Ok(fresh(opening))
}

// ---- the columns

// What a host lends for the quotes that are kept: three slices and no slice of quotes, as the C interface needs it. That a call leaves the same memory lent is
// a clause of each (`SameColumns`): it speaks of before and after, where a field or an invariant speaks of one moment.
#[derive(Drop)]
pub struct QuoteColumns<'a> {
    pub strikes: &'a mut [f64],
    pub expiries: &'a mut [f64],
    pub volatilities: &'a mut [f64],
}

impl QuoteColumns<'_> {
    // As a build reads them.
    pub fn quotes(&self) -> Quotes<'_>
        ensures { columns_in result ≡ columns_held self.now }
    {
        Quotes {
            strikes: self.strikes,
            expiries: self.expiries,
            volatilities: self.volatilities,
        }
    }

    // An offer is kept at one place.
    fn file(&mut self, at: usize, o: Offer, volatility: f64)
        requires { Within at (columns_held self.old) }
        ensures same_memory { SameColumns self.new self.old }
        ensures filed { columns_held self.new ≡ filed at o volatility (columns_held self.old) }
    {
        self.strikes[at] = o.strike;
        self.expiries[at] = o.expiry;
        self.volatilities[at] = volatility;
    }
}

// 1
#[tactic(auto, unfolding(chart::specs::Quotes::is_short))]
fn is_short(quotes: &Quotes<'_>) -> bool
    ensures { result ≡ is_short (columns_in quotes.now) }
{
    verdicts::is_short(
        quotes.strikes.len(),
        quotes.expiries.len(),
        quotes.volatilities.len(),
    )
}

// ---- the offers

// An offer: checks 1 to 5, 7, 8, 10, then the solver of a price. An accepted one is written at index kept.
#[tactic(auto, unfolding(ledger::specs::Book::columns_after, brent::specs::Outcome::outcome_of_implied))]
pub fn offer(book: Book, offer: Offer, columns: &mut QuoteColumns<'_>) -> Heard
    ensures same_memory { SameColumns columns.new columns.old }
    ensures offers { Offers bsm book (columns_held columns.old) offer result (columns_held columns.new) }
{
    let heard = verdicts::decide(book, is_short(&columns.quotes()), offer);
    let Ok(solution) = heard.answer else {
        return heard;
    };
    columns.file(book.kept as usize, offer, solution.volatility);
    heard
}

// ---- the build

// The surface of the quotes kept: checks 1, 2, 15, 16, 17. The book is unchanged.
#[tactic(auto, unfolding(ledger::specs::Build::build_refusal, crate::proofs::Ends::first, crate::proofs::Ends::answered, crate::proofs::Ends::unless_refused))]
pub fn build(
    book: Book,
    quotes: &Quotes<'_>,
    buffers: &mut SurfaceBuffers<'_>,
) -> Result<Lengths, Refusal>
    ensures same_memory { SameBuffers buffers.new buffers.old }
    ensures builds { BuildsBook book (columns_in quotes.now) (buffers_in buffers.old) (outcome result) (buffers_in buffers.new) }
{
    check(!is_short(quotes), Refusal::ShortColumn)?;
    check(!verdicts::is_broken(book), Refusal::OutOfBounds)?;
    surface::build(quotes, book.kept, buffers)
}
