// What both checks do, over the width of their groups and their polynomial.
ghost use Rattle.std.specs.Prelude.{◌≡◌, ◌%◌, ◌^◌, ◌<◌, map, length};
ghost use Rattle.checks.specs.Checks.{check};
ghost use Rattle.checks.specs.Widths.{table, Fits};

// The WIDTH low bits of a group.
#[tactic(auto, using(crate::proofs::Table::masked))]
fn cut<const WIDTH: u32>(group: u8) -> u8
    requires { WIDTH < 8 }
    ensures { result ≡ group % 2 ^ WIDTH }
{
    group & ((1 << WIDTH) - 1)
}

// The check of WIDTH bits by the polynomial x^WIDTH + LOW, from a start value on, looked up in its whole table.
pub(crate) fn check<const WIDTH: u32, const LOW: u8>(entries: &[u8], start: u8, groups: &[u8]) -> u8
    requires narrow { WIDTH < 8 }
    requires whole { entries.now ≡ table WIDTH LOW }
    requires long { length entries.now ≡ 2 ^ WIDTH }
    requires fits { Fits WIDTH LOW start }
    ensures value { result ≡ check WIDTH LOW start (map (λ v. v % 2 ^ WIDTH) groups.now) }
    ensures small { result < 2 ^ WIDTH }
{
    let mut value = start;
    for group in groups {
        value = entries[value as usize] ^ cut::<WIDTH>(*group);
    }
    entries[value as usize]
}
