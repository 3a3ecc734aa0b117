//! One cue from grant to screen, each action printed.
#![tactic(auto)]

mod story;

use bank::Ring;
use std::io;
use story::first_cue;

const CUE: u32 = 42;

fn main(rt: HostRuntime) -> io::Result<()> {
    let mut bank = Ring::new();
    let story = first_cue(&mut bank, CUE);
    println!(rt; "mailbox 0 is the manager's: {}", story.fresh)?;
    println!(rt;
        "the manager grants it to panel 1 for 2 words and 60 ticks: {}",
        story.granted
    )?;
    println!(rt; "the panel sends cue {CUE}: {}", story.sent)?;
    println!(rt; "a tick passes: {}", story.aged)?;
    println!(rt; "the display receives cue {}", story.received)?;
    println!(rt; "the queue is empty: {}", story.emptied)?;
    println!(rt; "the panel yields and the grant ends: {}", story.ended)
}
