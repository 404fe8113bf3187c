ghost use Rattle.std.specs.Prelude.{Some};
ghost use Rattle.values.specs.Modes.{word_of};

use std::fmt;

// How a pump is run: not at all, by hand, or by the pressure loop.
#[derive(Clone, Copy, PartialEq, Eq, Debug)]
pub enum Mode {
    Off,
    Hand,
    Auto,
}

impl fmt::Display for Mode {
    ghost output = { λ m. Some (word_of m) };

    fn fmt<W: fmt::Write>(&self, f: &mut fmt::Formatter<W>) -> fmt::Result {
        match self {
            Mode::Off => f.write_str("off"),
            Mode::Hand => f.write_str("hand"),
            Mode::Auto => f.write_str("auto"),
        }
    }
}
