// The reading at the money: at the strike nearest the spot of the book's record.
#![tactic(auto)]

ghost use Rattle.std.specs.Prelude.{◌≡◌};
ghost use Rattle.ledger.specs.Money.{at_the_money, money_outcome};

use ledger::{Book, Money};
use limits::{Refusal, check};
use readings::Surface;

// 2 of the record; then 2, 15, 18 and 20 of the surface. 19 cannot hold of a strike of the axis.
#[tactic(auto, unfolding(ledger::specs::Money::at_the_money, limits::specs::Checks::first, limits::specs::Outcome::answered))]
pub fn at_the_money(book: Book, surface: &Surface<'_>, expiry: f64) -> Result<Money, Refusal>
    ensures { money_outcome result ≡ at_the_money book
        surface.now.strike_axis.now surface.now.expiry_axis.now surface.now.grid.now surface.now.strikes surface.now.expiries expiry }
{
    check(!verdicts::is_broken(book), Refusal::OutOfBounds)?;
    let strike = surface.nearest_strike(book.spot);
    let volatility = surface.interpolate(strike, expiry)?;
    Ok(Money { strike, volatility })
}
