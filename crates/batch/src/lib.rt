// Whole trays: a fresh book hears a list of offers from lent slices, and a surface is built of what it kept.
#![tactic(auto)]

ghost use Rattle.admission.specs.Lent.{buffers_in, SameBuffers};
ghost use Rattle.book.specs.Lent.{columns_held, SameColumns};
ghost use Rattle.trays.specs.Tray.{HearsAll, lent, heard_offers, reply_of, QuotesTray};
ghost use Rattle.batch.specs.Lent.{answers_in, SameAnswers};

use admission::SurfaceBuffers;
use book::QuoteColumns;
use ledger::{Book, Opening, Unopened};
use rows::{evidence_of, numbers_of, offer_of, shortest};
use trays::Tray;

// A list of offers: each is a row of `kinds` (a price or a volatility, of a put or a call) and one of `figures` (strike, expiry, value). They are two slices,
// and no slice of offers, since the C interface lends them so.
#[derive(Clone, Copy)]
pub struct Offers<'a> {
    pub kinds: &'a [[bool; 2]],
    pub figures: &'a [[f64; 3]],
}

// Where the answers are written: of each a row of `numbers` (0 for accepted, evaluations) and one of `evidence` (volatility, error, point c and its error),
// in two slices, as the C interface lends them.
#[derive(Drop)]
pub struct Answers<'a> {
    pub numbers: &'a mut [[u64; 2]],
    pub evidence: &'a mut [[f64; 4]],
}

// As many offers as the shortest of the four slices has rows, each with the record and the columns as the last left them.
// (A loop over the four rows zipped, both of the answers by `iter_mut`, was tried: the proof knows nothing of what `numbers` and `evidence` hold after it.)
fn hear_all(
    book: Book,
    offers: &Offers<'_>,
    answers: &mut Answers<'_>,
    columns: &mut QuoteColumns<'_>,
) -> Book
    ensures same_answers { SameAnswers answers.new answers.old }
    ensures same_columns { SameColumns columns.new columns.old }
    ensures hears { HearsAll
        (record { book = book; columns = columns_held columns.old })
        (heard_offers offers.now.kinds.now offers.now.figures.now (answers_in answers.old))
        (answers_in answers.old)
        result
        (columns_held columns.new)
        (answers_in answers.new) }
{
    let n = shortest(
        offers.kinds.len(),
        offers.figures.len(),
        answers.numbers.len(),
        answers.evidence.len(),
    );
    let mut b = book;
    for i in 0..n {
        let heard = book::offer(b, offer_of(offers.kinds[i], offers.figures[i]), columns);
        answers.numbers[i] = numbers_of(heard.answer);
        answers.evidence[i] = evidence_of(heard.answer);
        b = heard.book;
    }
    b
}

// A whole tray: opens a fresh book, hears the list, builds.
pub fn quote_tray(
    opening: Opening,
    offers: &Offers<'_>,
    answers: &mut Answers<'_>,
    columns: &mut QuoteColumns<'_>,
    buffers: &mut SurfaceBuffers<'_>,
) -> Result<Tray, Unopened>
    ensures same_answers { SameAnswers answers.new answers.old }
    ensures same_columns { SameColumns columns.new columns.old }
    ensures same_buffers { SameBuffers buffers.new buffers.old }
    ensures quotes { QuotesTray opening
        (heard_offers offers.now.kinds.now offers.now.figures.now (answers_in answers.old))
        (lent (answers_in answers.old) (columns_held columns.old) (buffers_in buffers.old))
        (reply_of result)
        (lent (answers_in answers.new) (columns_held columns.new) (buffers_in buffers.new)) }
{
    let fresh = book::open(opening)?;
    let book = hear_all(fresh, offers, answers, columns);
    let built = book::build(book, &columns.quotes(), buffers);
    Ok(Tray { book, built })
}
