// What a source has to give, in figures.
ghost use Rattle.std.specs.Prelude.{◌≡◌};
ghost use Rattle.unitfile.specs.Summaries.{edges_of, breaks_of, capped, span_of};

use model::event::Event;
use model::source::EdgeSource;

// The times of the first and of the last event.
#[derive(Clone, Copy, PartialEq, Eq, Debug)]
pub struct Span {
    pub first: u64,
    pub last: u64,
}

// How many edges and breaks, each figure stopped at the greatest that it can hold, and when.
#[derive(Clone, Copy, PartialEq, Eq, Debug)]
pub struct Summary {
    pub edges: u32,
    pub breaks: u32,
    pub span: Option<Span>,
}

impl Summary {
    ghost use Rattle.unitfile.specs.Summaries.{with_event};

    // Counts one more event.
    fn add(&mut self, event: Event)
        ensures { self.new ≡ with_event self.old event }
    {
        match event {
            Event::Edge { .. } => self.edges = self.edges.saturating_add(1),
            Event::Break { .. } => self.breaks = self.breaks.saturating_add(1),
        }
        let last = event.time();
        let first = self.span.map_or(last, |span| span.first);
        self.span = Some(Span { first, last });
    }
}

// Takes every event of the source.
pub fn summary_of<S: EdgeSource + Drop>(mut source: S) -> Summary
    ensures edges { result.edges ≡ capped (edges_of (S.EdgeSource.events source)) }
    ensures breaks { result.breaks ≡ capped (breaks_of (S.EdgeSource.events source)) }
    ensures span { result.span ≡ span_of (S.EdgeSource.events source) }
{
    let mut summary = Summary {
        edges: 0,
        breaks: 0,
        span: None,
    };
    while let Some(event) = source.take() {
        summary.add(event);
    }
    summary
}
