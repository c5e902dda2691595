// The two channels of a unit.
ghost use Rattle.std.specs.Prelude.{◌≡◌};
ghost use Rattle.model.specs.Sides.{side_letter};

#[derive(Clone, Copy, PartialEq, Eq, Debug)]
pub enum Side {
    A,
    B,
}

impl Side {
    // The letter by which the channel is told.
    pub fn letter(self) -> char
        ensures { result ≡ side_letter self }
    {
        match self {
            Side::A => 'A',
            Side::B => 'B',
        }
    }
}
