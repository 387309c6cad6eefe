//! What is kept of a place, in 12 bytes or in a list.

ghost use Rattle.std.specs.Prelude.{◌≡◌, ◌<◌, ◌∷◌, ◌++◌, [], ℕ, List, Some, IfSome, false, true};
ghost use Rattle.tclocks.specs.declared.step.Access.{Access};
ghost use Rattle.tclocks.specs.Kept.{accesses_of, is_own, two_by, two_of, unless_none, IsBrief, IsBriefly};
ghost use Rattle.tclocks.specs.Kept.{IsNotedBriefly, ReplacesAll};
ghost use Rattle.tclocks.specs.Places.{first_race, knows_of};
ghost use Rattle.tclocks.specs.Places as spec;

use crate::clock::Clock;
use crate::mode::Mode;
use crate::step::{Access, Step};
use crate::ways::Ways;

/// What is kept of a place. Without a list these are at most two accesses, each by the number of its step, or 0 where
/// there is none. More need a list, as do two in other modes, and agents whose numbers do not fit.
#[derive(Clone, Copy)]
pub enum Kept {
    /// Those of one agent: its last put, and its last look, or its last claim if `claims`.
    OfOne {
        claims: bool,
        agent: u16,
        put: u32,
        look: u32,
    },
    /// Two accesses in these ways, by the steps of these agents.
    UpToTwo {
        ways: Ways,
        agents: (u8, u8),
        numbers: (u32, u32),
    },
    /// Two changes of this kind.
    TwoChanges {
        kind: u8,
        agents: (u8, u8),
        numbers: (u32, u32),
    },
    /// A put, and a change of this kind.
    PutAndChange {
        kind: u8,
        agents: (u8, u8),
        numbers: (u32, u32),
    },
    /// The accesses in the list of this number.
    InList(u32),
}

const _: () = prove!(size_of::<Kept>() == 12);

/// Nothing is kept.
pub const NOTHING: Kept = Kept::OfOne {
    claims: false,
    agent: 0,
    put: 0,
    look: 0,
};

impl Kept {
    /// Notes an access, if all that is kept is of the same agent and it puts, claims or looks, but for a look behind a
    /// claim: whether it did.
    #[inline(always)]
    pub fn note_own(&mut self, step: Step, mode: Mode) -> bool
        requires { 0 < step.number }
        ensures own { result ≡ is_own step.agent mode self.old }
        ensures noted { result ≡ true → (clock : List ℕ)
            → IsNotedBriefly clock (record { mode = mode; step = step }) self.old self.new }
        ensures kept { result ≡ false → self.new ≡ self.old }
    {
        let Kept::OfOne {
            claims,
            agent,
            put,
            look,
        } = self
        else {
            return false;
        };
        if u32::from(*agent) != step.agent {
            return false;
        }
        match mode {
            Mode::Looks => {
                if *claims {
                    return false;
                }
                *look = step.number;
            }
            Mode::Claims => {
                *claims = true;
                *look = step.number;
            }
            Mode::Puts => {
                *claims = false;
                *put = step.number;
                *look = 0;
            }
            Mode::Checks | Mode::Lends | Mode::Commutes(_) => return false,
        }
        true
    }

    /// The two accesses that are kept without a list.
    #[inline]
    pub fn two(self) -> Option<(Access, Access)>
        ensures { result ≡ two_of self }
    {
        match self {
            Kept::OfOne {
                claims,
                agent,
                put,
                look,
            } => {
                let looks = if claims { Mode::Claims } else { Mode::Looks };
                let agent = u32::from(agent);
                Some(two((Mode::Puts, looks), (agent, agent), (put, look)))
            }
            Kept::UpToTwo {
                ways,
                agents,
                numbers,
            } => Some(two(ways.modes(), widened(agents), numbers)),
            Kept::TwoChanges {
                kind,
                agents,
                numbers,
            } => {
                let change = Mode::Commutes(kind);
                Some(two((change, change), widened(agents), numbers))
            }
            Kept::PutAndChange {
                kind,
                agents,
                numbers,
            } => {
                let modes = (Mode::Puts, Mode::Commutes(kind));
                Some(two(modes, widened(agents), numbers))
            }
            Kept::InList(_) => None,
        }
    }

    /// What is kept without a list behind an access that replaces all that is kept, or that is like one of two, of the
    /// same agent, and races with neither.
    pub fn with_known(self, clock: &Clock, access: Access) -> Option<Kept>
        requires { 0 < access.step.number }
        ensures { IfSome result (λ kept. IsNotedBriefly clock.now access self kept) }
    {
        let (first, second) = self.two()?;
        if replaces(clock, access, first) && replaces(clock, access, second) {
            return alone(access);
        }
        if is_again(access, first) && !races(clock, access.step.agent, access.mode, second) {
            return Some(self.with_numbers((access.step.number, second.step.number)));
        }
        if is_again(access, second) && !races(clock, access.step.agent, access.mode, first) {
            return Some(self.with_numbers((first.step.number, access.step.number)));
        }
        None
    }

    /// The same two accesses by steps of these numbers.
    fn with_numbers(self, numbers: (u32, u32)) -> Kept
        ensures { IfSome (two_of self) (λ two. two_of result ≡ Some
            (two_by (two.0.mode, two.1.mode) (two.0.step.agent, two.1.step.agent) numbers)) }
    {
        match self {
            Kept::OfOne { claims, agent, .. } => Kept::OfOne {
                claims,
                agent,
                put: numbers.0,
                look: numbers.1,
            },
            Kept::UpToTwo { ways, agents, .. } => Kept::UpToTwo {
                ways,
                agents,
                numbers,
            },
            Kept::TwoChanges { kind, agents, .. } => Kept::TwoChanges {
                kind,
                agents,
                numbers,
            },
            Kept::PutAndChange { kind, agents, .. } => Kept::PutAndChange {
                kind,
                agents,
                numbers,
            },
            Kept::InList(list) => Kept::InList(list),
        }
    }

    /// The first that an access races with, of those that are kept without a list.
    pub fn first_race(self, clock: &Clock, access: Access) -> Option<Access>
        ensures { IsBrief self → (lists : List (List Access))
            → result ≡ first_race access.step.agent clock.now access.mode (accesses_of lists self) }
    {
        let (first, second) = self.two()?;
        race(clock, access, first).or(race(clock, access, second))
    }

    /// Accesses without a list, where they fit.
    pub fn of(accesses: &[Access]) -> Option<Kept>
        ensures { IfSome result (λ kept. IsBriefly accesses.now kept) }
    {
        match accesses {
            [access] if access.step.number != 0 => alone(*access),
            [first, second] if first.step.number != 0 && second.step.number != 0 => {
                up_to_two(*first, *second)
            }
            _ => None,
        }
    }
}

/// Two accesses in these modes by these agents' steps of these numbers.
#[inline]
fn two(modes: (Mode, Mode), agents: (u32, u32), numbers: (u32, u32)) -> (Access, Access)
    ensures { result ≡ two_by modes agents numbers }
{
    let first = Step {
        agent: agents.0,
        number: numbers.0,
    };
    let second = Step {
        agent: agents.1,
        number: numbers.1,
    };
    (
        Access {
            mode: modes.0,
            step: first,
        },
        Access {
            mode: modes.1,
            step: second,
        },
    )
}

/// The same numbers of two agents.
#[inline]
fn widened(agents: (u8, u8)) -> (u32, u32)
    ensures { result ≡ agents }
{
    (u32::from(agents.0), u32::from(agents.1))
}

/// The numbers of the agents of two accesses, where they fit.
fn narrowed(first: Access, second: Access) -> Option<(u8, u8)>
    ensures { IfSome result (λ agents. agents ≡ (first.step.agent, second.step.agent)) }
{
    let first = u8::try_from(first.step.agent).ok()?;
    let second = u8::try_from(second.step.agent).ok()?;
    Some((first, second))
}

/// One access without a list, where it fits.
fn alone(access: Access) -> Option<Kept>
    requires { 0 < access.step.number }
    ensures { IfSome result (λ kept. IsBriefly (access ∷ []) kept) }
{
    let Step { agent, number } = access.step;
    let (claims, put, look) = match access.mode {
        Mode::Puts => (false, number, 0),
        Mode::Looks => (false, 0, number),
        Mode::Claims => (true, 0, number),
        mode => {
            let step = Step { agent, number: 0 };
            return of_two(access, Access { mode, step });
        }
    };
    let agent = u16::try_from(agent).ok()?;
    Some(Kept::OfOne {
        claims,
        agent,
        put,
        look,
    })
}

/// Two accesses without a list, where they fit; a step of number 0 is none.
fn up_to_two(first: Access, second: Access) -> Option<Kept>
    ensures { IfSome result (λ kept. IsBriefly (unless_none first ++ unless_none second) kept) }
{
    if first.step.agent == second.step.agent {
        if let Some(kept) = of_one(first, second) {
            return Some(kept);
        }
    }
    of_two(first, second)
}

/// A put, and a look or claim, of one agent without a list, where they fit.
fn of_one(first: Access, second: Access) -> Option<Kept>
    requires { first.step.agent ≡ second.step.agent }
    ensures { IfSome result (λ kept. two_of kept ≡ Some (first, second)) }
{
    let claims = match (first.mode, second.mode) {
        (Mode::Puts, Mode::Looks) => false,
        (Mode::Puts, Mode::Claims) => true,
        _ => return None,
    };
    let agent = u16::try_from(first.step.agent).ok()?;
    Some(Kept::OfOne {
        claims,
        agent,
        put: first.step.number,
        look: second.step.number,
    })
}

/// Two accesses by agents of 8 bits without a list, where they fit.
fn of_two(first: Access, second: Access) -> Option<Kept>
    ensures { IfSome result (λ kept. two_of kept ≡ Some (first, second)) }
{
    let agents = narrowed(first, second)?;
    let numbers = (first.step.number, second.step.number);
    match (first.mode, second.mode) {
        (Mode::Commutes(kind), Mode::Commutes(other)) => {
            (kind == other).then_some(Kept::TwoChanges {
                kind,
                agents,
                numbers,
            })
        }
        (Mode::Puts, Mode::Commutes(kind)) => Some(Kept::PutAndChange {
            kind,
            agents,
            numbers,
        }),
        (first, second) => Some(Kept::UpToTwo {
            ways: Ways::of(first, second)?,
            agents,
            numbers,
        }),
    }
}

/// Whether an access replaces an earlier one, or that is none.
fn replaces(clock: &Clock, access: Access, earlier: Access) -> bool
    ensures { result ≡ true → ReplacesAll clock.now access (unless_none earlier) }
{
    earlier.step.number == 0
        || (access.mode.covers(earlier.mode) && knows(clock, access.step.agent, earlier.step))
}

/// Whether an access is in the mode of an earlier one, and by the same agent.
fn is_again(access: Access, earlier: Access) -> bool
    ensures mode { result ≡ true → access.mode ≡ earlier.mode }
    ensures agent { result ≡ true → access.step.agent ≡ earlier.step.agent }
{
    access.step.agent == earlier.step.agent && access.mode.is(earlier.mode)
}

/// The earlier access, if it is one and an access races with it.
fn race(clock: &Clock, access: Access, earlier: Access) -> Option<Access>
    ensures { result ≡ first_race access.step.agent clock.now access.mode (unless_none earlier) }
{
    let races = earlier.step.number != 0 && races(clock, access.step.agent, access.mode, earlier);
    races.then_some(earlier)
}

/// Whether an agent with this clock knows of a step.
#[inline]
pub fn knows(clock: &Clock, agent: u32, step: Step) -> bool
    ensures { result ≡ knows_of agent clock.now step }
{
    step.agent == agent || step.number <= clock.count(step.agent)
}

/// Whether an access races with one of this mode by an agent with this clock.
#[inline]
pub fn races(clock: &Clock, agent: u32, mode: Mode, access: Access) -> bool
    ensures { result ≡ spec.races agent clock.now mode access }
{
    access.mode.collides_with(mode) && !knows(clock, agent, access.step)
}
