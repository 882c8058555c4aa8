// The states of a growth.
ghost use Rattle.std.specs.Prelude.{◌≡◌};
ghost use Rattle.base.specs.Tests.{if};
ghost use Rattle.answer.specs.Numbers.{refusal_number};
ghost use Rattle.journal.specs.States.{counts_as_open, ended_refusal};
ghost use Rattle.journal.specs.StateNumbers.{state_number, Decodes};

use answer::Refusal;

#[derive(Clone, Copy, Debug, PartialEq, Eq)]
pub enum State {
    Open = 1,
    Closed = 2,
}

impl TryFrom<u8> for State {
    type Error = Refusal;

    ghost try_from_gives = { Decodes };

    #[tactic(auto, unfolding(crate::specs::States::listed_state))]
    fn try_from(number: u8) -> Result<State, Refusal> {
        match number {
            1 => Ok(State::Open),
            2 => Ok(State::Closed),
            _ => Err(Refusal::DamagedBook),
        }
    }
}

impl State {
    // The number that the journal has for it.
    pub fn number(self) -> u8
        ensures { result ≡ state_number self }
    {
        self as u8
    }

    // Refuses the growth's own calls in a state in which they do not act.
    #[tactic(auto, unfolding(crate::specs::States::counts_as_open, crate::specs::States::ended_refusal))]
    pub fn check_open(self) -> Result<(), Refusal>
        ensures { refusal_number result ≡ if (counts_as_open (state_number self)) 0 (ended_refusal (state_number self)) }
    {
        match self {
            State::Open => Ok(()),
            State::Closed => Err(Refusal::Closed),
        }
    }
}
