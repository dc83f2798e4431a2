// Runs bsm_price, bsm_greeks and implied_volatility on the records of standard input, and writes for each the operation, the inputs' bits, what was
// answered (number, evaluations, the value's bits) and ok or MISMATCH; after each kind of record, its totals. vectors.py makes the records and says
// what a line holds and where the expected values are from.
#![tactic(auto)]

use blackscholes::{Greeks, OptionParams, OptionType};
use brent::Solution;
use limits::Refusal;
use vectors::{Tally, Wanted, Words};

const STDOUT_FILENO: i32 = 1;

// The operation and the option's letter, a mark, five inputs, the number and the evaluations to expect, and two values.
const LINE: usize = 135;

// What a call answered, and the evaluations that it made.
#[derive(Clone, Copy)]
struct Got {
    answer: Result<f64, Refusal>,
    evaluations: u64,
}

impl From<Result<f64, Refusal>> for Got {
    fn from(answer: Result<f64, Refusal>) -> Got {
        Got {
            answer,
            evaluations: 0,
        }
    }
}

// ---- the calls

// The option of a line. For an implied volatility the last input is the market price: the volatility is not looked at there.
fn params(inputs: [u64; 5], letter: u8) -> OptionParams {
    let [spot, strike, expiry, rate, volatility] = inputs;
    OptionParams {
        spot: frames::float_of(spot),
        strike: frames::float_of(strike),
        time_to_expiry: frames::float_of(expiry),
        risk_free_rate: frames::float_of(rate),
        volatility: frames::float_of(volatility),
        // No `TryFrom`: neither type is of this crate.
        option_type: match letter {
            b'P' => OptionType::Put,
            _ => OptionType::Call,
        },
    }
}

// Call less put.
fn parity(params: OptionParams) -> Result<f64, Refusal> {
    let call = greeks::bsm_price(OptionParams {
        option_type: OptionType::Call,
        ..params
    })?;
    let put = greeks::bsm_price(OptionParams {
        option_type: OptionType::Put,
        ..params
    })?;
    Ok(call - put)
}

fn greek<F: Fn(Greeks) -> f64>(params: OptionParams, chosen: F) -> Got
    requires { F.IsAlwaysCallable chosen }
{
    Got::from(greeks::bsm_greeks(params).map(chosen))
}

fn implied<F: Fn(Solution) -> f64>(params: OptionParams, chosen: F) -> Got
    requires { F.IsAlwaysCallable chosen }
{
    match greeks::implied_volatility(params.volatility, params) {
        Ok(solution) => Got {
            answer: Ok(chosen(solution)),
            evaluations: solution.evaluations,
        },
        Err(unsolved) => Got {
            answer: Err(unsolved.refusal),
            evaluations: unsolved.evaluations,
        },
    }
}

// The call by the first and the third letter of the operation. sigma is the volatility, error its error; other is the opposing point, oerr its error.
fn answer(operation: &[u8], params: OptionParams) -> Got {
    match operation {
        [b'p', _, b'r', ..] => Got::from(parity(params)),
        [b'p', ..] => Got::from(greeks::bsm_price(params)),
        [b's', ..] => implied(params, |s| s.volatility),
        [b'e', ..] => implied(params, |s| s.error),
        [b'o', _, b'h', ..] => implied(params, |s| s.c),
        [b'o', ..] => implied(params, |s| s.c_error),
        [b'd', ..] => greek(params, |g| g.delta),
        [b'g', ..] => greek(params, |g| g.gamma),
        [b't', ..] => greek(params, |g| g.theta),
        [b'r', ..] => greek(params, |g| g.rho),
        [_, _, b'g', ..] => greek(params, |g| g.vega),
        [_, _, b'n', ..] => greek(params, |g| g.vanna),
        _ => greek(params, |g| g.volga),
    }
}

// ---- what a line expects

// '=' asks for the same bits, '~' for a distance of at most the second value, anything else for a value from the first to the second, ends included.
fn wanted(mark: u8, first: u64, second: u64) -> Wanted {
    match mark {
        b'=' => Wanted::Bits(first),
        b'~' => Wanted::Near {
            value: frames::float_of(first),
            tolerance: frames::float_of(second),
        },
        _ => Wanted::Within {
            low: frames::float_of(first),
            high: frames::float_of(second),
        },
    }
}

// A count against its two decimal digits.
fn counted(n: u64, tens: u8, units: u8) -> bool {
    n / 10 == frames::digit_value(tens) && n % 10 == frames::digit_value(units)
}

fn agrees(line: &[u8; LINE], got: Got) -> bool {
    let mut words = Words { text: &line[101..] };
    let wanted = wanted(line[8], words.word(), words.word());
    counted(outcomes::number_of(got.answer), line[95], line[96])
        && counted(got.evaluations, line[98], line[99])
        && wanted.is_met(outcomes::values_of(got.answer, 0.0))
}

// ---- what is written

fn print_count(n: u64) {
    io::write_all(STDOUT_FILENO, b" ");
    io::print_decimal(STDOUT_FILENO, n);
}

// Answers whether the call agrees with the line, and writes its answer out.
fn judge(line: &[u8; LINE]) -> bool {
    let mut words = Words { text: &line[10..] };
    let inputs = [
        words.word(),
        words.word(),
        words.word(),
        words.word(),
        words.word(),
    ];
    let got = answer(&line[..5], params(inputs, line[6]));
    let agrees = agrees(line, got);
    io::write_all(STDOUT_FILENO, &line[..7]);
    for input in inputs {
        vectors::print_word(input);
    }
    print_count(outcomes::number_of(got.answer));
    print_count(got.evaluations);
    vectors::print_word(frames::bits_of(outcomes::values_of(got.answer, 0.0)));
    io::write_all(STDOUT_FILENO, vectors::line_end(agrees).as_slice());
    agrees
}

// Runs the records of a kind and writes its name and their totals. Answers whether there was one.
fn section() -> bool {
    let mut tally = Tally::default();
    // The loop has an end that no input comes to. Its line is no `from_fn`'s, since the input's end is answered otherwise than a section's.
    for _ in 0..100000 {
        let Some(line) = vectors::read_line() else {
            return false;
        };
        match line[0] {
            b'#' => {}
            b'.' => {
                io::write_all(STDOUT_FILENO, &line[2..12]);
                break;
            }
            _ => tally.count(judge(&line)),
        }
    }
    io::write_all(STDOUT_FILENO, b" ");
    tally.print();
    true
}

fn main() {
    // Nothing says that an input ends, so the turns are counted.
    for _ in 0..1000 {
        if !section() {
            return;
        }
    }
}
