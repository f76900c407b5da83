// What an accepted feed does: the samples appended, every carrier filtered, every new position searched.

ghost use Rattle.std.specs.Prelude.{◌≡◌, ◌≤◌, ◌/◌, length};
ghost use Rattle.offers.specs.Chi.{lent_tables};
ghost use Rattle.rx.specs.Numbers.{end_with};
ghost use Rattle.rx.specs.Ready.{Ready};
ghost use Rattle.rx.specs.Fed.{FollowedBy, SearchOnFits, SearchedOn, AcceptedBy};

use crate::FeedResult;
use dat::Tables;
use filter::Spans;
use refusal::Position;
use search::Tracks;
use state::{State, places};
use track::Span;

// What an accepted feed is lent: its tables, a turn book of 3,000 complex numbers, and at most 4,000 samples.
#[derive(Clone, Copy)]
pub struct Lent<'a> {
    pub tables: Tables<'a>,
    pub book: &'a [f64],
    pub samples: &'a [f64],
    ghost book_is: { length book.now ≡ 6000 },
    ghost few: { length samples.now / 2 ≤ 4000 },
}

// The spans of the tracks after the samples' append and the filter.
#[derive(Clone, Copy)]
pub struct Followed {
    pub samples: Span,
    pub spans: Spans,
}

impl<'a> Lent<'a> {
    // The samples appended, and every carrier filtered up to `end`.
    fn follow(&self, s: State, memory: &mut [f64], end: Position) -> Followed
        requires { Ready self.now.tables.layout s (length memory.old)
            × (end.0 ≡ end_with self.now.tables.layout s (length self.now.samples.now / 2)) }
        ensures { FollowedBy self.now.tables.layout self.now.book.now self.now.samples.now s memory.old
            memory.new result }
    {
        let l = self.tables.layout;
        let samples = track::append(l, memory, 0, s.samples, self.samples);
        let spans = Spans {
            filtered: s.filtered,
            step: s.step,
            power: s.power,
        };
        let n = (end.0 - places::span_end(s.filtered).0) as usize;
        Followed {
            samples,
            spans: filter::filter_carriers(l, memory, self.book, samples, spans, n),
        }
    }

    // An accepted feed.
    pub fn accept(&self, s: State, memory: &mut [f64]) -> FeedResult
        requires { Ready self.now.tables.layout s (length memory.old) }
        ensures { AcceptedBy self.now.tables.layout
            (lent_tables self.now.tables) self.now.book.now self.now.samples.now s memory.old memory.new
            (length self.now.samples.now / 2) result }
    {
        let samples_end = places::span_end(s.samples).0 + self.samples.len() as u64 / 2;
        let end = places::filtered_end(self.tables.layout, s.start, Position(samples_end));
        let after = self.follow(s, memory, end);
        search_on(&self.tables, s, memory, after, end)
    }
}

// The search over the tracks, filtered up to `end`, and the state after it.
fn search_on(t: &Tables, s: State, memory: &[f64], after: Followed, end: Position) -> FeedResult
    requires { SearchOnFits t.now.layout s (length memory.now) after end.0 }
    ensures { SearchedOn t.now.layout (lent_tables t.now) s memory.now after end.0 result }
{
    let spans = after.spans;
    let lo = places::search_from(s.search, s.filtered.base);
    let n = places::search_count(t.layout, lo, end);
    let tracks = Tracks {
        memory,
        step: spans.step,
        power: spans.power,
    };
    let o = search::search(t, &tracks, lo, n as usize, s.hold);
    FeedResult {
        state: State {
            samples: after.samples,
            filtered: spans.filtered,
            step: spans.step,
            power: spans.power,
            search: places::place_after(s.search, lo, n),
            hold: o.next,
            ..s
        },
        answer: Ok(o.release),
    }
}
