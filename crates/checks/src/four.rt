// The check of four bits, with the polynomial x^4 + x^3 + x^2 + 1.
ghost use Rattle.std.specs.Prelude.{◌≡◌, ◌%◌, ◌<◌, map};
ghost use Rattle.checks.specs.Checks.{check4};
ghost use Rattle.checks.specs.Widths.{table, Linear, DifferByTheLinearPart};
ghost use Rattle.checks.specs.Found.{OneChangedNibbleFound, MovedNeighboursFound};

use crate::running::check;

const TABLE: [u8; 16] = [0, 13, 7, 10, 14, 3, 9, 4, 1, 12, 6, 11, 15, 2, 8, 5];

// The whole table: each value times x^4.
pub fn table4() -> &'static [u8; 16]
    ensures { result.now ≡ table 4 0b1101 }
{
    &TABLE
}

// The check nibble of data nibbles; of a number that is no nibble the low four bits count.
#[tactic(auto, unfolding(crate::specs::Checks::check4))]
pub fn check4(nibbles: &[u8]) -> u8
    ensures value { result ≡ check4 (map (λ v. v % 16) nibbles.now) }
    ensures small { result < 16 }
    ensures table_linear_over_xor { Linear 4 (table 4 0b1101) }
    ensures changes_tell_by_the_linear_part { DifferByTheLinearPart }
    ensures one_changed_nibble_found { OneChangedNibbleFound }
    ensures moved_neighbours_found { MovedNeighboursFound }
{
    check::<4, 0b1101>(&TABLE, 5, nibbles)
}
