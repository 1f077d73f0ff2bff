//! Which message goes first.

ghost use Rattle.std.specs.Prelude.{◌≡◌};
ghost use Rattle.cm_model.specs.Wiring.{rule_number};

/// The rule by which a router chooses who leaves (ours): by how long its messages have stood there, or by their age.
#[derive(Clone, Copy, Debug, Default, PartialEq, Eq)]
pub enum Rule {
    /// Who came to the chip first goes first.
    #[default]
    First,
    /// Who was born first goes first; of one birth the lower origin; of one tag, who came to the chip first.
    Oldest,
}

impl Rule {
    /// Its number, by which images and sessions tell it.
    pub fn number(self) -> u8
        ensures value { result ≡ rule_number self }
    {
        match self {
            Rule::First => 0,
            Rule::Oldest => 1,
        }
    }
}
