// Document 01's values that are no theorems, and bad input for each call: a line for each call's answer,
// which also says whether the stores are as they were, and warns where a buffer was changed past what was
// written. tools/message_model.py computes the same lines from PROTOCOL without this library.

#![tactic(auto)]

mod acks;
mod arrivals;
mod ask;
mod eight;
mod flags;
mod frames;
mod hours;
mod make;
mod repeats;
mod rooms;
mod sends;
mod show;
mod sources;
mod stores;
mod values;

use std::io;

// Each group of lines starts from stores that it makes anew.
fn main(rt: HostRuntime) -> io::Result<()> {
    values::pieces(&rt)?;
    values::topics(&rt)?;
    frames::all(&rt)?;
    frames::needed(&rt)?;
    frames::sizes(&rt)?;
    frames::order(&rt)?;
    flags::fresh(&rt)?;
    flags::held(&rt)?;
    rooms::replies(&rt)?;
    rooms::wakes(&rt)?;
    rooms::reports(&rt)?;
    rooms::takes(&rt)?;
    stores::unsound(&rt)?;
    stores::one_sound(&rt)?;
    stores::setups(&rt)?;
    sends::lengths(&rt)?;
    sends::clocks(&rt)?;
    sends::records(&rt)?;
    sends::kinds(&rt)?;
    eight::stamps(&rt)?;
    eight::started(&rt)?;
    hours::refused(&rt)?;
    hours::edges(&rt)?;
    arrivals::inits(&rt)?;
    arrivals::records(&rt)?;
    repeats::equal(&rt)?;
    repeats::others(&rt)?;
    arrivals::chunks(&rt)?;
    arrivals::ends(&rt)?;
    arrivals::cells(&rt)?;
    sources::all(&rt)?;
    arrivals::dones(&rt)?;
    arrivals::wholes(&rt)?;
    acks::states(&rt)
}
