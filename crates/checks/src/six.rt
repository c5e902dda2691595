// The check of six bits, with the polynomial x^6 + x^4 + x^3 + 1.
ghost use Rattle.std.specs.Prelude.{◌≡◌, ◌%◌, ◌<◌, map};
ghost use Rattle.checks.specs.Checks.{check6};
ghost use Rattle.checks.specs.Widths.{table, Linear, DifferByTheLinearPart};

use crate::running::check;

const TABLE: [u8; 64] = [
    0, 25, 50, 43, 61, 36, 15, 22, 35, 58, 17, 8, 30, 7, 44, 53, 31, 6, 45, 52, 34, 59, 16, 9, 60,
    37, 14, 23, 1, 24, 51, 42, 62, 39, 12, 21, 3, 26, 49, 40, 29, 4, 47, 54, 32, 57, 18, 11, 33,
    56, 19, 10, 28, 5, 46, 55, 2, 27, 48, 41, 63, 38, 13, 20,
];

// The whole table: each value times x^6.
pub fn table6() -> &'static [u8; 64]
    ensures { result.now ≡ table 6 0b011001 }
{
    &TABLE
}

// The check of groups of six bits; of a number that is wider the low six bits count.
#[tactic(auto, unfolding(crate::specs::Checks::check6))]
pub fn check6(groups: &[u8]) -> u8
    ensures value { result ≡ check6 (map (λ v. v % 64) groups.now) }
    ensures small { result < 64 }
    ensures table_linear_over_xor { Linear 6 (table 6 0b011001) }
    ensures changes_tell_by_the_linear_part { DifferByTheLinearPart }
{
    check::<6, 0b011001>(&TABLE, 21, groups)
}
