// The number and the values of each answer, 0 and the refusal's zeros included, for hosts.
#![tactic(auto)]

ghost use Rattle.std.specs.Prelude.{◌≡◌, ℕ};
ghost use Rattle.limits.specs.Outcome.{values_of};
ghost use Rattle.limits.specs.Refusals.{number};
ghost use Rattle.outcomes.specs.Told.{told_number, told_outcome};

use limits::Refusal;

// What turned a call down, told by a number: one of document 01's table, or any other. No `Into`, whose member is a relation: this is an equation.
pub trait Numbered: Copy {
    ghost number_told: { Self → ℕ };

    fn number(self) -> u64
        ensures { result ≡ number_told self };
}

impl Numbered for Refusal {
    ghost number_told = { number };

    fn number(self) -> u64
        ensures { result ≡ number self }
    {
        u64::from(self)
    }
}

// Any number, as it is.
impl Numbered for u64 {
    ghost number_told = { λ n. n };

    fn number(self) -> u64
        ensures { result ≡ self }
    {
        self
    }
}

// 0 for done, or the refusal's number.
pub fn number_of<T: Copy, E: Numbered>(answer: Result<T, E>) -> u64
    ensures { result ≡ told_number E.number_told answer }
{
    match answer {
        Ok(_) => 0,
        Err(refusal) => refusal.number(),
    }
}

// The values, or those that stand beside a number.
pub fn values_of<T: Copy, E: Numbered>(answer: Result<T, E>, zeros: T) -> T
    ensures { result ≡ values_of (told_outcome E.number_told (λ _. zeros) answer) }
{
    answer.unwrap_or(zeros)
}
