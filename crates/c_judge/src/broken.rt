//! Rules that are broken, and which of them is told.

ghost use Rattle.std.specs.Prelude.{◌≡◌};
ghost use Rattle.c_judge.specs.Broken.{noted};

use c_typing::Rule;

/// A rule that is broken, at a token of its unit.
#[derive(Clone, Copy, Debug, PartialEq, Eq)]
pub struct Broken {
    pub token: u32,
    pub rule: Rule,
}

/// Of what was told so far and one more broken rule, the one at the lesser token, and at one token the one with the lesser number.
pub fn noted(before: Option<Broken>, now: Broken) -> Option<Broken>
    ensures { result ≡ noted before now }
{
    match before {
        Some(told) => {
            if told.token < now.token
                || (told.token == now.token && told.rule.number() <= now.rule.number())
            {
                Some(told)
            } else {
                Some(now)
            }
        }
        None => Some(now),
    }
}
