// A receiver and its feeds.
ghost use Rattle.rx.specs.Feed.{FedBy};
ghost use Rattle.replay.specs.Feeds.{given_by, part_of, parts, FedInParts};

use crate::{Detection, show_refusal};
use hold::Release;
use refusal::{Position, Refusal};
use replay_inputs::failure::Failure;
use replay_inputs::tables::Tables;
use rx::State;
use std::alloc::Global;
use std::io;

// A receiver's state, and the memory that it stands in.
#[derive(Drop)]
pub struct Receiver {
    pub state: State,
    pub memory: Vec<f64>,
}

impl Receiver {
    // A receiver opened at position 1,000, over memory full of a value.
    pub fn open(alloc: Global, tables: &Tables, value: f64) -> Result<Receiver, Failure> {
        let l = tables.layout;
        let state = opening::open(
            l.bandwidth,
            l.rec,
            &tables.markers,
            &tables.phasors,
            Position(1000),
            &tables.book,
        )?;
        let memory = vec![in alloc; value; 2 * l.memory_len()]?;
        Ok(Receiver { state, memory })
    }

    // One feed, whose first sample has the number given.
    pub fn feed(
        &mut self,
        tables: &Tables,
        number: u64,
        samples: &[f64],
    ) -> Result<Release, Refusal>
        ensures { FedBy (given_by tables.now number samples.now) self.old.state self.old.memory.items result
            self.new.state self.new.memory.items }
    {
        let l = tables.layout;
        let fed = rx::feed(
            l.bandwidth,
            l.rec,
            &tables.markers,
            &tables.phasors,
            &tables.book,
            self.state,
            &mut self.memory,
            Position(number),
            samples,
        );
        self.state = fed.state;
        fed.answer
    }

    // One feed, and the detection that it releases. A refusal is shown, and releases none.
    pub fn detect(
        &mut self,
        rt: &impl Print,
        tables: &Tables,
        number: u64,
        samples: &[f64],
    ) -> io::Result<Option<Detection>> {
        match self.feed(tables, number, samples) {
            Ok(Release::NoRelease) => Ok(None),
            Ok(Release::Released(p, m)) => Ok(Some(Detection {
                position: p.0,
                metric_bits: replay_inputs::bits_of(m),
            })),
            Err(r) => {
                show_refusal(rt, r)?;
                Ok(None)
            }
        }
    }

    // Feeds of 4,000 samples, two numbers each, whose first sample has the number given: what they release. A refused
    // feed ends it.
    pub fn feed_all(
        &mut self,
        alloc: Global,
        tables: &Tables,
        first: u64,
        samples: &[f64],
    ) -> Result<Vec<Detection>, Failure>
        ensures { FedInParts (part_of tables.now first samples.now) (parts samples.now) self.old.state
            self.old.memory.items result self.new.state self.new.memory.items }
    {
        let mut found = Vec::new(alloc);
        let mut number = first;
        for part in samples.chunks(8000) {
            if let Release::Released(p, m) = self.feed(tables, number, part)? {
                found.push(Detection {
                    position: p.0,
                    metric_bits: replay_inputs::bits_of(m),
                })?;
            }
            number = number.saturating_add(4000);
        }
        Ok(found)
    }
}

#[cfg(test)]
mod tests {
    use super::*;
    use replay_inputs::sending::Sending;

    // What two frames in the layout 500/6 release where their first sample has that number.
    fn released(alloc: Global, first: u64) -> Result<Vec<Detection>, Failure> {
        let sent = Sending::new(alloc, 500, 6, 2)?;
        let signal = sent.noisy(alloc, 25700)?;
        let mut receiver = Receiver::open(alloc, &sent.tables, 0.0 / 0.0)?;
        receiver.feed_all(alloc, &sent.tables, first, &signal)
    }

    // The detections that the Rust answers with.
    #[test]
    fn detections_of_two_frames(rt: HostRuntime) {
        let Ok(found) = released(rt.alloc(), 1000) else {
            panic!(rt; "not fed");
        };
        let first = Detection {
            position: 1972,
            metric_bits: 0x4083_79c3_c09e_f00d,
        };
        let second = Detection {
            position: 13972,
            metric_bits: 0x4082_9b19_fd02_02f6,
        };
        assert!(rt; found.as_slice() == [first, second].as_slice());
    }

    // 01, condition 19: a number that isn't the sample end.
    #[test]
    fn refused_feed(rt: HostRuntime) {
        assert!(rt;
            matches!(
                released(rt.alloc(), 1001),
                Err(Failure::Refused(Refusal::SampleNumber))
            )
        );
    }
}
