// Replays stored cases, for the programs: asks for one after the other, and counts those that are equal.
#![tactic(auto)]

ghost use Rattle.std.specs.Prelude.{◌≡◌, ◌≤◌, IfOk, if◌then◌else◌};
ghost use Rattle.wiedergabe.specs.declared.Replayed.TheVariants.{Equal, Different};
ghost use Rattle.wiedergabe.specs.Replay.{equal_of, Replays};

use std::io;

/// What one stored case comes to. No `Option<bool>`: an unreadable case is counted, and is not the missing one that
/// ends a replay.
#[derive(Clone, Copy, Debug, PartialEq, Eq, Drop)]
pub enum Replayed {
    /// The answer is the one that is expected.
    Equal,
    /// It is another, or the case has another form.
    Different,
    /// The case has no form that can be read, and what stands behind it cannot be read either.
    Unreadable,
}

impl From<bool> for Replayed {
    ghost from_gives = { λ equal r. r ≡ (if equal then Equal else Different) };

    /// Of a case that can be read: whether its answer is the one that is expected.
    fn from(equal: bool) -> Replayed {
        match equal {
            true => Replayed::Equal,
            false => Replayed::Different,
        }
    }
}

impl Replayed {
    // How many equal cases it is: one or none.
    fn equal(self) -> u64
        ensures value { result ≡ equal_of self }
        ensures most { result ≤ 1 }
    {
        match self {
            Replayed::Equal => 1,
            Replayed::Different | Replayed::Unreadable => 0,
        }
    }
}

/// How many cases there were, and how many of them were equal.
#[derive(Clone, Copy, Debug, PartialEq, Eq, Drop)]
pub struct Counts {
    pub total: u64,
    pub equal: u64,
}

/// Replays case after case, until `next` has none or one is unreadable, and prints the number of each that is not
/// equal, a line for each: the first has number 1. A proved loop has to end, and nothing says that the cases do: so it
/// stops at `u64::MAX`, a number that no run comes to. An error of `next` or of printing ends it.
#[tactic(auto, using(crate::proofs::Leads::leads))]
pub fn replay_all<F: FnMut() -> io::Result<Option<Replayed>>>(
    rt: &impl Print,
    mut next: F,
) -> io::Result<Counts>
    requires { F.IsAlwaysCallable next }
    ensures bound { IfOk result (λ c. c.equal ≤ c.total) }
    // Each case was counted, and counted as what it is.
    ensures counts { IfOk result (λ c. Replays F.step next u64.MAX c.total c.equal) }
{
    let mut equal = 0;
    for total in 0..u64::MAX {
        let Some(case) = next()? else {
            return Ok(Counts { total, equal });
        };
        equal += case.equal();
        if case != Replayed::Equal {
            println!(rt; "{}", total + 1)?;
        }
        if case == Replayed::Unreadable {
            return Ok(Counts {
                total: total + 1,
                equal,
            });
        }
    }
    Ok(Counts {
        total: u64::MAX,
        equal,
    })
}

#[cfg(test)]
mod tests {
    use super::*;
    use std::test::Fail;

    #[test]
    fn counts_to_the_unreadable_case(rt: HostRuntime) -> Result<(), Fail> {
        let cases = [
            Replayed::Equal,
            Replayed::Different,
            Replayed::Unreadable,
            Replayed::Equal,
        ];
        let mut rest = cases.iter();
        let counts = replay_all(&rt, || Ok(rest.next().copied()))?;
        assert_eq!(rt; counts, Counts { total: 3, equal: 1 });
        let counts = replay_all(&rt, || Ok(rest.next().copied()))?;
        assert_eq!(rt; counts, Counts { total: 1, equal: 1 });
        let counts = replay_all(&rt, || Ok(rest.next().copied()))?;
        assert_eq!(rt; counts, Counts { total: 0, equal: 0 });
        Ok(())
    }
}
