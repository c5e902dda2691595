// Every list of calls on a new unit, and the law of such runs.
ghost use Rattle.std.specs.Prelude.{◌≡◌, ◌≤◌, [], length, vec_capacity, OnOk};
ghost use Rattle.receiver.specs.Standing.{ruled};
ghost use Rattle.receiver.specs.Units.{setup, lists};
ghost use Rattle.receiver.specs.Receiving.{standing_new};
ghost use Rattle.runs.specs.Law.{LawfulRun, AnsweredInTurn};
ghost use Rattle.runs.specs.Running.{answers_of, left_by_all, RunsAsDefined};

use model::feed::Feed;
use model::source::EdgeSource;
use receiver::answer::{Answer, Call};
use receiver::unit::Receiver;
use serial::format::SerialFormat;

// Makes the calls one after the other; there is room for their answers.
fn make_calls<SA: EdgeSource, SB: EdgeSource, FA: SerialFormat, FB: SerialFormat>(
    unit: &mut Receiver<SA, SB, FA, FB>,
    calls: &[Call],
    out: &mut Vec<Answer<FA::Message, FB::Message>>,
)
    requires { (out.old.items ≡ []) × (length calls.now ≤ vec_capacity out.old) }
    ensures answers { out.new.items ≡ answers_of FA.meaning FB.meaning unit.old calls.now }
    ensures left { unit.new ≡ left_by_all FA.meaning FB.meaning unit.old calls.now }
    ensures room_stays { vec_capacity out.new ≡ vec_capacity out.old }
{
    for call in calls {
        out.push_reserved(unit.call(*call));
    }
}

// Why a run is not made.
#[derive(Clone, Copy, PartialEq, Eq, Debug)]
pub enum RunRefusal {
    // the list lent has not room for an answer to each call
    Room,
}

// A run that is not made: the unit comes back, beside the reason, which can be kept without it.
#[derive(Drop)]
pub struct NoRoom<U> {
    pub unit: U,
    pub why: RunRefusal,
}

// The run without its law, which is shown of what this promises: a wrong body is refused here, at the definition that it misses.
fn make_run<SA: EdgeSource, SB: EdgeSource, FA: SerialFormat, FB: SerialFormat>(
    a: Feed<SA>,
    b: Feed<SB>,
    calls: &[Call],
    out: &mut Vec<Answer<FA::Message, FB::Message>>,
) -> Result<Receiver<SA, SB, FA, FB>, NoRoom<Receiver<SA, SB, FA, FB>>>
    ensures { RunsAsDefined FA.meaning FB.meaning (standing_new a.settings b.settings (lists (SA.events a.source) (SB.events b.source))) calls.now out.old out.new result }
{
    let mut unit = Receiver::new(a, b);
    if out.capacity() < calls.len() {
        return Err(NoRoom {
            unit,
            why: RunRefusal::Room,
        });
    }
    out.clear();
    make_calls(&mut unit, calls, out);
    Ok(unit)
}

// Makes a new unit and then the calls, and puts their answers, in order, in the place of what the list held. The list needs the
// capacity already, so that nothing is allocated: the run is refused exactly if there are more calls than it has room for. The unit
// then comes back new, with nothing taken, and the list is as it was.
pub fn run<SA: EdgeSource, SB: EdgeSource, FA: SerialFormat, FB: SerialFormat>(
    a: Feed<SA>,
    b: Feed<SB>,
    calls: &[Call],
    out: &mut Vec<Answer<FA::Message, FB::Message>>,
) -> Result<Receiver<SA, SB, FA, FB>, NoRoom<Receiver<SA, SB, FA, FB>>>
    ensures as_defined { RunsAsDefined FA.meaning FB.meaning (standing_new a.settings b.settings (lists (SA.events a.source) (SB.events b.source))) calls.now out.old out.new result }
    ensures every_run_lawful { OnOk result (LawfulRun (setup (ruled a.settings FA.meaning) (ruled b.settings FB.meaning)) (lists (SA.events a.source) (SB.events b.source)) calls.now out.new.items) }
    ensures answered_in_turn { OnOk result (AnsweredInTurn (setup (ruled a.settings FA.meaning) (ruled b.settings FB.meaning)) (lists (SA.events a.source) (SB.events b.source)) calls.now out.new.items) }
{
    make_run(a, b, calls, out)
}
