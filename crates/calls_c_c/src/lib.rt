// The archive for C of calls_c (include/dimpstea.h): its calls, exported under their own names, each with the clauses
// of the call that it hands on. Nothing is decided here.

#![tactic(auto)]

ghost use Rattle.carrier_rows.specs.Symbols.{sending};
ghost use Rattle.calls_c.specs.Calls.{ModulateCall, NcoPhaseCall, CarrierAudioCall, PayloadBitsCall, MeterCall};
ghost use Rattle.calls_c.specs.Steps.{SoftStepCall, NearestPointCall};
ghost use Rattle.calls_c.specs.DrawMarkers.{DrawMarkersCall};
ghost use Rattle.complex.specs.Arithmetic.{cx};
ghost use Rattle.calls_c.specs.PilotSum.{PilotSumCall};
ghost use Rattle.order.specs.declared.Order.TheVariants.{Time, Carrier};
ghost use Rattle.calls_c.specs.SoftOrder.{OrderCall};
ghost use Rattle.calls_c.specs.Tenths.{DecibelsCall};

// The rows of all carriers.
#[unsafe(no_mangle)]
pub extern "C" fn dimpstea_modulate(
    bandwidth: u32,
    rec: u32,
    markers: &[u16],
    phasors: &[f64],
    frames: u32,
    payload: &[u8],
    draws: &[u8],
    rows: &mut [f64],
) -> u32
    ensures { ModulateCall bandwidth rec (sending markers.now phasors.now frames
        payload.now draws.now) rows.old result rows.new }
{
    calls_c::dimpstea_modulate(
        bandwidth, rec, markers, phasors, frames, payload, draws, rows,
    )
}

// Each carrier's phase at each place of a window, and the phases after it.
#[unsafe(no_mangle)]
pub extern "C" fn dimpstea_nco_phase(
    bandwidth: u32,
    rec: u32,
    window: usize,
    phases: &mut [f32],
    out: &mut [f32],
) -> u32
    ensures { NcoPhaseCall bandwidth rec window phases.old out.old result phases.new
        out.new }
{
    calls_c::dimpstea_nco_phase(bandwidth, rec, window, phases, out)
}

// The samples of a window of places, and the phases after it.
#[unsafe(no_mangle)]
pub extern "C" fn dimpstea_carrier_audio(
    bandwidth: u32,
    rec: u32,
    frames: u32,
    symbols: &[f64],
    place: u64,
    window: usize,
    waves: &[f64],
    phases: &mut [f32],
    out: &mut [f64],
) -> u32
    ensures { CarrierAudioCall bandwidth rec frames symbols.now place window waves.now
        phases.old out.old result phases.new out.new }
{
    calls_c::dimpstea_carrier_audio(
        bandwidth, rec, frames, symbols, place, window, waves, phases, out,
    )
}

// The payload that soft bits read as.
#[unsafe(no_mangle)]
pub extern "C" fn dimpstea_payload_bits(
    bandwidth: u32,
    rec: u32,
    soft: &[f64],
    out: &mut [u8],
) -> u32
    ensures { PayloadBitsCall bandwidth rec soft.now out.old result out.new }
{
    calls_c::dimpstea_payload_bits(bandwidth, rec, soft, out)
}

// The differing bits of a payload sent and a payload read.
#[unsafe(no_mangle)]
pub extern "C" fn dimpstea_meter(
    bandwidth: u32,
    rec: u32,
    sent: &[u8],
    read: &[u8],
    differing: &mut u64,
) -> u32
    ensures { MeterCall bandwidth rec sent.now read.now differing.old result
        differing.new }
{
    calls_c::dimpstea_meter(bandwidth, rec, sent, read, differing)
}

// The soft bits of one step in an alphabet of 2, 4, 8, 16 or 32 points.
#[unsafe(no_mangle)]
pub extern "C" fn dimpstea_soft_step(
    size: usize,
    re: f64,
    im: f64,
    nvar: f64,
    out: &mut [f64],
) -> u32
    ensures { SoftStepCall size re im nvar out.old result out.new }
{
    calls_c::dimpstea_soft_step(size, re, im, nvar, out)
}

// The nearest point of a step, its squared distance, and the least among the other points.
#[unsafe(no_mangle)]
pub extern "C" fn dimpstea_nearest_point(
    size: usize,
    re: f64,
    im: f64,
    label: &mut u64,
    distance: &mut f64,
    runner_up: &mut f64,
) -> u32
    ensures { NearestPointCall size re im label.old distance.old
        runner_up.old result
        label.new distance.new runner_up.new }
{
    calls_c::dimpstea_nearest_point(size, re, im, label, distance, runner_up)
}

// A layout's marker table, drawn from the state, which becomes the one after the last draw.
#[unsafe(no_mangle)]
pub extern "C" fn dimpstea_draw_markers(
    bandwidth: u32,
    rec: u32,
    state: &mut u32,
    limit: u32,
    out: &mut [u16],
) -> u32
    ensures { DrawMarkersCall bandwidth rec state.old limit out.old result state.new
        out.new }
{
    calls_c::draw_markers::dimpstea_draw_markers(bandwidth, rec, state, limit, out)
}

// The direction's index, and the residual in thirty-seconds of a hertz.
#[unsafe(no_mangle)]
pub extern "C" fn dimpstea_residual(re: f64, im: f64, index: &mut u32, residual: &mut i32) -> u32
    ensures { PilotSumCall (cx re im) index.old residual.old result index.new
        residual.new }
{
    calls_c::pilot_sum::dimpstea_residual(re, im, index, residual)
}

// A reading's soft bits by symbol, then carrier.
#[unsafe(no_mangle)]
pub extern "C" fn dimpstea_by_time(
    bandwidth: u32,
    rec: u32,
    markers: &[u16],
    soft: &[f64],
    out: &mut [f64],
) -> u32
    ensures { OrderCall Time bandwidth rec markers.now soft.now out.old result
        out.new }
{
    calls_c::soft_order::dimpstea_by_time(bandwidth, rec, markers, soft, out)
}

// The inverse: soft bits by symbol, then carrier, as a reading has them.
#[unsafe(no_mangle)]
pub extern "C" fn dimpstea_by_carrier(
    bandwidth: u32,
    rec: u32,
    markers: &[u16],
    timed: &[f64],
    out: &mut [f64],
) -> u32
    ensures { OrderCall Carrier bandwidth rec markers.now timed.now out.old result
        out.new }
{
    calls_c::soft_order::dimpstea_by_carrier(bandwidth, rec, markers, timed, out)
}

// The tenths of a reading's median.
#[unsafe(no_mangle)]
pub extern "C" fn dimpstea_decibels(median: f64, tenths: &mut u32) -> u32
    ensures { DecibelsCall median tenths.old result tenths.new }
{
    calls_c::tenths::dimpstea_decibels(median, tenths)
}
