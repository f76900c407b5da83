// A receiver, what was sent to it, and its readings.
ghost use Rattle.std.specs.Prelude.{◌≤◌};
ghost use Rattle.replay.specs.Feeds.{part_of, parts};
ghost use Rattle.reading_shown.specs.LastFed.{FedLast, SameSent};

use crate::shown;
use reading::Reading;
use refusal::{Position, Refusal};
use replay::receiver::Receiver;
use replay_inputs::failure::Failure;
use replay_inputs::sending::Sending;
use replay_inputs::tables::Tables;
use std::alloc::{AllocError, Global};
use std::io;

#[derive(Drop)]
pub struct Station {
    pub alloc: Global,
    pub sent: Sending,
    pub receiver: Receiver,
}

// A frame to read: where it may be, its drift rows, and the payload sent in it.
#[derive(Clone, Copy)]
pub struct Frame<'a> {
    pub t0: u64,
    pub drift: &'a [f64],
    pub payload: &'a [u8],
}

// What a reading fills.
#[derive(Drop)]
pub struct Buffers {
    pub scratch: Vec<f64>,
    pub out: Vec<f64>,
    pub bits: Vec<u8>,
}

impl Buffers {
    // As long as the layout asks, the numbers all 7.
    pub fn new(alloc: Global, tables: &Tables) -> Result<Buffers, AllocError> {
        Ok(Buffers {
            scratch: vec![in alloc; 7.0; tables.phasors.len()]?,
            out: vec![in alloc; 7.0; tables.layout.n]?,
            bits: vec![in alloc; 0u8; tables.layout.n]?,
        })
    }
}

fn kept(same: bool) -> &'static str {
    if same { "as before" } else { "changed" }
}

impl Station {
    // Frames sent in a layout, and a receiver over memory full of a value.
    pub fn new(
        alloc: Global,
        bandwidth: u32,
        rec: u32,
        frames: usize,
        value: f64,
    ) -> Result<Station, Failure>
        requires { frames ≤ 4 }
    {
        let sent = Sending::new(alloc, bandwidth, rec, frames)?;
        let receiver = Receiver::open(alloc, &sent.tables, value)?;
        Ok(Station {
            alloc,
            sent,
            receiver,
        })
    }

    // Feeds of 4,000 samples, from the number of the first on: the position of the last release, or 0. A refused feed
    // ends it.
    pub fn feed(&mut self, number: u64, samples: &[f64]) -> Result<u64, Failure>
        ensures calls { FedLast (part_of self.old.sent.tables number samples.now) (parts samples.now)
            self.old.receiver.state self.old.receiver.memory.items result self.new.receiver.state
            self.new.receiver.memory.items }
        ensures sent { SameSent self.old.sent self.new.sent }
    {
        let found = self
            .receiver
            .feed_all(self.alloc, &self.sent.tables, number, samples)?;
        Ok(found.last().map_or(0, |d| d.position))
    }

    // The same, where a refused feed is shown, and those after it go on.
    pub fn detect(&mut self, rt: &impl Print, number: u64, samples: &[f64]) -> io::Result<u64> {
        let mut at = number;
        let mut last = 0;
        for part in samples.chunks(8000) {
            if let Some(found) = self.receiver.detect(rt, &self.sent.tables, at, part)? {
                last = found.position;
            }
            at = at.saturating_add(4000);
        }
        Ok(last)
    }

    pub fn reading(&self, frame: Frame<'_>, buffers: &mut Buffers) -> Result<Reading, Refusal> {
        let l = self.sent.tables.layout;
        reading::read(
            l.bandwidth,
            l.rec,
            &self.sent.tables.markers,
            &self.sent.tables.phasors,
            self.receiver.state,
            &self.receiver.memory,
            Position(frame.t0),
            frame.drift,
            &mut buffers.scratch,
            &mut buffers.out,
        )
    }

    // Reads, and shows the answer under a name; of a refusal, whether scratch and out are as they were.
    pub fn read_into(
        &self,
        rt: &impl Print,
        name: &str,
        frame: Frame<'_>,
        buffers: &mut Buffers,
    ) -> Result<(), Failure> {
        rt.println(name)?;
        let scratch = replay_inputs::digest(&buffers.scratch);
        let out = replay_inputs::digest(&buffers.out);
        match self.reading(frame, buffers) {
            Ok(r) => {
                shown::reading(rt, r)?;
                shown::soft(rt, self.sent.tables.layout, frame.payload, buffers)?;
            }
            Err(q) => {
                let n = q.number();
                let scratch = kept(replay_inputs::digest(&buffers.scratch) == scratch);
                let out = kept(replay_inputs::digest(&buffers.out) == out);
                println!(rt; "  read: refused {n}, scratch {scratch}, out {out}")?;
            }
        }
        Ok(())
    }

    // The same with buffers of its own, which it gives back.
    pub fn read(&self, rt: &impl Print, name: &str, frame: Frame<'_>) -> Result<Buffers, Failure> {
        let mut buffers = Buffers::new(self.alloc, &self.sent.tables)?;
        self.read_into(rt, name, frame, &mut buffers)?;
        Ok(buffers)
    }

    // Locates, and shows the answer.
    pub fn locate(&self, rt: &impl Print, t0: u64) -> io::Result<()> {
        let l = self.sent.tables.layout;
        let answer = reading::locate(
            l.bandwidth,
            l.rec,
            &self.sent.tables.markers,
            &self.sent.tables.phasors,
            self.receiver.state,
            &self.receiver.memory,
            Position(t0),
        );
        rt.print("  located:")?;
        match answer {
            Ok(x) => shown::located(rt, x),
            Err(q) => println!(rt; " refused {}", q.number()),
        }
    }
}

#[cfg(test)]
mod tests {
    use super::*;

    // Where two frames with noise in the layout 500/4 are released: one after the other, and both in one list.
    #[derive(Drop)]
    struct Released {
        first: u64,
        second: u64,
        last: u64,
        again: Result<u64, Failure>,
    }

    // The list is fed once more at the end.
    fn fed(alloc: Global) -> Result<Released, Failure> {
        let mut station = Station::new(alloc, 500, 4, 2, 0.0 / 0.0)?;
        let mut other = Station::new(alloc, 500, 4, 2, 0.0 / 0.0)?;
        let signal = station.sent.noisy(alloc, 26800)?;
        let (early, late) = signal.split_at(32000);
        Ok(Released {
            first: station.feed(1000, early)?,
            second: station.feed(17000, late)?,
            last: other.feed(1000, &signal)?,
            again: other.feed(1000, &signal),
        })
    }

    // The Rust's positions, and 01's condition 19: a number that isn't the sample end.
    #[test]
    fn last_release_of_two_frames(rt: HostRuntime) {
        let Ok(r) = fed(rt.alloc()) else {
            panic!(rt; "not fed");
        };
        assert_eq!(rt; r.first, 1966);
        assert_eq!(rt; r.second, 14542);
        assert_eq!(rt; r.last, 14542);
        assert!(rt; matches!(r.again, Err(Failure::Refused(Refusal::SampleNumber))));
    }
}
