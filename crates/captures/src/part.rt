// Why a capture has no such part.
ghost use Rattle.std.specs.Prelude.{◌≡◌};
ghost use Rattle.captures.specs.Parts.{part_number};

#[derive(Clone, Copy, PartialEq, Eq, Debug)]
pub enum PartRefusal {
    // the first place is behind the last, or the last is no record of an accepted capture
    NoSuchPart = 9,
}

impl PartRefusal {
    pub fn number(self) -> u16
        ensures { result ≡ part_number self }
    {
        self as u16
    }
}
