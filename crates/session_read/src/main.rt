// A session of one frame in the layout 500/6, with no noise: an opening, feeds of 4,000 samples, and a reading at their
// last release.

#![tactic(auto)]

use hold::Release;
use reading_shown::shown;
use reading_shown::station::Buffers;
use refusal::Position;
use replay_inputs::failure::Failure;
use replay_inputs::sending::Sending;
use session::Feed;
use std::alloc::{AllocError, Global};
use std::io;

// The feeds of a signal, two numbers a sample: 4,000 samples each, the first numbered 1,000.
fn feeds<'a>(
    alloc: Global,
    sent: &'a Sending,
    signal: &'a [f64],
) -> Result<Vec<Feed<'a>>, AllocError> {
    let t = &sent.tables;
    let mut feeds = Vec::new(alloc);
    let mut number: u64 = 1000;
    for part in signal.chunks(8000) {
        feeds.push(Feed {
            bandwidth: t.layout.bandwidth,
            rec: t.layout.rec,
            markers: &t.markers,
            phasors: &t.phasors,
            book: &t.book,
            number: Position(number),
            samples: part,
        })?;
        number = number.saturating_add(4000);
    }
    Ok(feeds)
}

// Shows what a session comes to: where it reads, and the reading.
fn show(rt: &impl Print, alloc: Global) -> Result<(), Failure> {
    let sent = Sending::new(alloc, 500, 6, 1)?;
    let l = sent.tables.layout;
    let signal = sent.clean(alloc, 13400)?;
    let feeds = feeds(alloc, &sent, &signal)?;
    let mut answers = vec![in alloc; Ok(Release::NoRelease); feeds.len()]?;
    let mut memory = vec![in alloc; 0.0; 2 * l.memory_len()]?;
    let mut buffers = Buffers::new(alloc, &sent.tables)?;
    let answer = session::open_feed_read(
        &feeds,
        &mut answers,
        &mut memory,
        &[],
        &mut buffers.scratch,
        &mut buffers.out,
    );
    let Some(run) = answer else {
        println!(rt; "no feed")?;
        return Ok(());
    };
    let run = run?;
    match run.last {
        None => println!(rt; "nothing released")?,
        Some((p, Err(q))) => println!(rt; "at {}: refused {}", p.0, q.number())?,
        Some((p, Ok(r))) => {
            println!(rt; "{} feeds, read at {}", feeds.len(), p.0)?;
            shown::reading(rt, r)?;
            shown::soft(rt, l, &sent.payload, &mut buffers)?;
        }
    }
    Ok(())
}

fn main(rt: HostRuntime) -> io::Result<()> {
    replay::finish(&rt, show(&rt, rt.alloc()))
}
