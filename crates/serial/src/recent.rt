// The last things that came, in fixed memory.
ghost use Rattle.std.specs.Prelude.{◌≡◌, ◌-◌, ◌<◌, ◌≤◌, [], ◌∷◌, ◌++◌, length, take, drop};
ghost use Rattle.serial.specs.declared.recent.TheConstants.{ROOM};

use std::marker::Model;

// Three times what a window keeps at most, and more.
const ROOM: usize = 64;

// Things of two types that come together: the things kept stand in both rows from `start` up to `end`. Rows that are longer let them
// move on by one at each push, and back to the front only now and then. No ring, since a format reads a row as one slice; no array
// vectors, which would move all at each push; and not a row for itself, which would count twice.
#[derive(Drop)]
pub(crate) struct Recent<T, U> {
    firsts: [T; ROOM],
    seconds: [U; ROOM],
    start: usize,
    end: usize,
}

// Clauses see what is kept, oldest first, of both types.
impl<T, U> Model for Recent<T, U> {
    ghost use Rattle.std.specs.Prelude.{◌+◌, ◌<◌, ◌≤◌, take, drop};
    ghost use Rattle.serial.specs.declared.recent.TheConstants.{ROOM};
    ghost use Rattle.serial.specs.Rows.{Rows};

    ghost Value = { Rows T U };

    ghost view = { λ r. record { firsts = drop r.start (take r.end r.firsts); seconds = drop r.start (take r.end r.seconds) } };

    ghost invariant = { λ r. (r.start ≤ r.end) × (r.end ≤ ROOM) × (r.end < r.start + ROOM) };
}

// Moves what stands from `from` on to the front.
fn to_front<T: Copy>(row: &mut [T], from: usize)
    requires { from ≤ length row.old }
    ensures { take (length row.old - from) row.new ≡ drop from row.old }
{
    row.copy_within(from.., 0);
}

impl<T: Copy, U: Copy> Recent<T, U> {
    ghost use Rattle.serial.specs.Windows.{last};

    // Nothing is kept yet; the blanks fill the memory.
    pub(crate) fn new(first: T, second: U) -> Recent<T, U>
        ensures firsts { result.firsts ≡ [] }
        ensures seconds { result.seconds ≡ [] }
    {
        Recent {
            firsts: [first; ROOM],
            seconds: [second; ROOM],
            start: 0,
            end: 0,
        }
    }

    pub(crate) fn clear(&mut self)
        ensures firsts { self.new.firsts ≡ [] }
        ensures seconds { self.new.seconds ≡ [] }
    {
        self.start = 0;
        self.end = 0;
    }

    pub(crate) fn firsts(&self) -> &[T]
        ensures { result.now ≡ self.now.firsts }
    {
        &self.firsts[..self.end][self.start..]
    }

    pub(crate) fn seconds(&self) -> &[U]
        ensures { result.now ≡ self.now.seconds }
    {
        &self.seconds[..self.end][self.start..]
    }

    // Keeps one thing more of each type, and of all the last `most`.
    pub(crate) fn push(&mut self, first: T, second: U, most: usize)
        requires some { 1 ≤ most }
        requires few { most < ROOM }
        ensures firsts { self.new.firsts ≡ last most (self.old.firsts ++ first ∷ []) }
        ensures seconds { self.new.seconds ≡ last most (self.old.seconds ++ second ∷ []) }
    {
        if self.end == ROOM {
            to_front(&mut self.firsts, self.start);
            to_front(&mut self.seconds, self.start);
            self.end -= self.start;
            self.start = 0;
        }
        let end = self.end;
        self.firsts[end] = first;
        self.seconds[end] = second;
        self.end = end + 1;
        if self.end - self.start > most {
            self.start = self.end - most;
        }
    }
}
