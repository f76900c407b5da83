// The archive for C of modem_c (include/dimpstea.h): its calls, exported under their own names, each with the clauses
// of the call that it hands on. Nothing is decided here.

#![tactic(auto)]

ghost use Rattle.std.specs.Prelude.{[]};
ghost use Rattle.rx.specs.Feed.{given};
ghost use Rattle.reading.specs.Read.{asked};
ghost use Rattle.numbers.specs.Numbers.{state_of, lent_release};
ghost use Rattle.modem_c.specs.Calls.{lent_state};
ghost use Rattle.modem_c.specs.Calls.{LayoutCall, OpenCall, FeedCall, OfferCall};
ghost use Rattle.modem_c.specs.ReadingCalls.{LocateCall, ReadCall};

// The layout's numbers.
#[unsafe(no_mangle)]
pub extern "C" fn dimpstea_layout(bandwidth: u32, rec: u32, numbers: &mut [u64]) -> u32
    ensures { LayoutCall bandwidth rec numbers.old result numbers.new }
{
    modem_c::dimpstea_layout(bandwidth, rec, numbers)
}

// A fresh receiver's state. Its length is met after the tables (1 to 7) and before start and turn book (15 and 16).
#[unsafe(no_mangle)]
pub extern "C" fn dimpstea_open(
    bandwidth: u32,
    rec: u32,
    markers: &[u16],
    phasors: &[f64],
    start: u64,
    book: &[f64],
    state: &mut [u64],
    metric: &mut f64,
) -> u32
    ensures { OpenCall bandwidth rec markers.now phasors.now start book.now
        state.old metric.old result state.new metric.new }
{
    modem_c::dimpstea_open(bandwidth, rec, markers, phasors, start, book, state, metric)
}

// A feed. Only a state of 19 numbers is accepted, so that there is room for the next one.
#[unsafe(no_mangle)]
pub extern "C" fn dimpstea_feed(
    bandwidth: u32,
    rec: u32,
    markers: &[u16],
    phasors: &[f64],
    book: &[f64],
    state: &mut [u64],
    metric: &mut f64,
    memory: &mut [f64],
    number: u64,
    samples: &[f64],
    released: &mut u64,
    release_position: &mut u64,
    release_metric: &mut f64,
) -> u32
    ensures { FeedCall (given bandwidth rec markers.now phasors.now book.now
        number samples.now) (lent_state state.old metric.old) memory.old
        (lent_release released.old release_position.old release_metric.old) result
        (lent_state state.new metric.new) memory.new
        (lent_release released.new release_position.new release_metric.new) }
{
    modem_c::dimpstea_feed(
        bandwidth,
        rec,
        markers,
        phasors,
        book,
        state,
        metric,
        memory,
        number,
        samples,
        released,
        release_position,
        release_metric,
    )
}

// An offer to a hold by itself.
#[unsafe(no_mangle)]
pub extern "C" fn dimpstea_offer(
    hold: &mut [u64],
    held_metric: &mut f64,
    position: u64,
    has_metric: u64,
    metric: f64,
    released: &mut u64,
    release_position: &mut u64,
    release_metric: &mut f64,
) -> u32
    ensures { OfferCall (lent_state hold.old held_metric.old) position has_metric
        metric (lent_release released.old release_position.old release_metric.old)
        result (lent_state hold.new held_metric.new)
        (lent_release released.new release_position.new release_metric.new) }
{
    modem_c::dimpstea_offer(
        hold,
        held_metric,
        position,
        has_metric,
        metric,
        released,
        release_position,
        release_metric,
    )
}

// Where the frame at t0 lies. The result's length is met after the tables (1 to 7) and before the state (17).
#[unsafe(no_mangle)]
pub extern "C" fn dimpstea_locate(
    bandwidth: u32,
    rec: u32,
    markers: &[u16],
    phasors: &[f64],
    state: &[u64],
    metric: f64,
    memory: &[f64],
    t0: u64,
    t: &mut u64,
    res: &mut [f64],
) -> u32
    ensures { LocateCall (asked bandwidth rec markers.now phasors.now t0 [])
        (state_of state.now metric) memory.now t.old res.old result
        t.new res.new }
{
    modem_c::dimpstea_locate(
        bandwidth, rec, markers, phasors, state, metric, memory, t0, t, res,
    )
}

// A reading at t0. The result's length is met with those of scratch and out buffer, before either is written.
#[unsafe(no_mangle)]
pub extern "C" fn dimpstea_read(
    bandwidth: u32,
    rec: u32,
    markers: &[u16],
    phasors: &[f64],
    state: &[u64],
    metric: f64,
    memory: &[f64],
    t0: u64,
    drift: &[f64],
    scratch: &mut [f64],
    out: &mut [f64],
    t: &mut u64,
    res: &mut [f64],
) -> u32
    ensures { ReadCall (asked bandwidth rec markers.now phasors.now t0
        drift.now) (state_of state.now metric) memory.now scratch.old
        out.old t.old res.old result scratch.new out.new
        t.new res.new }
{
    modem_c::dimpstea_read(
        bandwidth, rec, markers, phasors, state, metric, memory, t0, drift, scratch, out, t, res,
    )
}
