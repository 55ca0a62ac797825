// A list of at most sixteen rule numbers, to be banned.
ghost use Rattle.std.specs.Prelude.{◌≡◌, ◌≤◌, [], length, OnErr};
ghost use Rattle.layers.specs.Ban.{among};

use grammar::refusal::Refusal;
use lists::list::List;
use std::marker::Model;

#[derive(Clone, Copy)]
pub struct Bans {
    numbers: List<u32, 16>,
    ghost few: { length numbers.items ≤ 16 },
}

// A clause sees the fields as they are. Without a view of its own the check finds no proof where a struct that holds a list is passed by value and used again, though it is `Copy`.
impl Model for Bans {
    ghost use Rattle.std.specs.Prelude.{refl};
    ghost use Rattle.layers.specs.Listing.{Bans as Seen};

    ghost Value = { Seen };

    ghost view = { λ b. record { numbers = b.numbers; few = b.few } };

    ghost inverse = { λ v. record { numbers = v.numbers; few = v.few } };

    ghost inverse_ok = { λ b l. refl };
}

impl Bans {
    ghost use Rattle.grammar.specs.Refusals.{accepted_unless};
    ghost use Rattle.layers.specs.Ban.{add_refused, added};
    ghost use Rattle.layers.specs.Held.{banned};

    // Bans nothing.
    pub fn none() -> Bans
        ensures { banned result ≡ [] }
    {
        Bans {
            numbers: List::new(0),
        }
    }

    // Bans one number more; repeats count.
    pub fn add(&mut self, number: u32) -> Result<(), Refusal>
        ensures refusal { result ≡ accepted_unless (add_refused (banned self.old)) }
        ensures means { banned self.new ≡ added number (banned self.old) }
        ensures same { OnErr result (self.new ≡ self.old) }
    {
        if self.numbers.len() < 16 {
            self.numbers.push(number).unwrap();
            Ok(())
        } else {
            Err(Refusal::TooManyBans)
        }
    }

    // Whether a number is banned.
    pub(crate) fn has(&self, number: u32) -> bool
        ensures { result ≡ among number (banned self.now) }
    {
        is_among(number, self.numbers.as_slice())
    }
}

// Whether a number stands in a list.
fn is_among(number: u32, numbers: &[u32]) -> bool
    ensures { result ≡ among number numbers.now }
{
    numbers.contains(&number)
}
