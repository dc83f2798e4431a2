// A whole tray on paper: a fresh book hears a list of offers from lent slices, and a surface is built of what it kept (specs/). Crate `batch` has the call.
#![tactic(auto)]

use chart::Lengths;
use ledger::Book;
use limits::Refusal;

// What a tray is answered whose opening is accepted: its record, and the build's answer.
#[derive(Clone, Copy)]
pub struct Tray {
    pub book: Book,
    pub built: Result<Lengths, Refusal>,
}
