// The rules on what streams an output and a trigger may name.
ghost use Rattle.std.specs.Prelude.{◌≡◌, ◌+◌, ◌<◌};
ghost use Rattle.tables.specs.Programs.{listed};
ghost use Rattle.tables.specs.Asking as asking;
ghost use Rattle.tables.specs.Rules as rules;
ghost use Rattle.checked.specs.Views as views;

use crate::element::{Output, Trigger};
use crate::parts::Parts;
use tables::op::{Op, Pace, Program};

// Whether a number divides another; 0 divides only itself.
fn divides(p: u32, n: u32) -> bool
    ensures { result ≡ rules.divides p n }
{
    n.is_multiple_of(p)
}

// Whether an output of the first pace may use now and past on a stream of the second.
fn keeps_pace(own: Pace, other: Pace) -> bool
    ensures { result ≡ rules.keeps_pace own other }
{
    match (own, other) {
        (Pace::Event, Pace::Event) => true,
        (Pace::Every(p), Pace::Every(q)) => divides(q, p),
        _ => false,
    }
}

// Whether a window of a duration may stand in an output of the first pace, over a stream of the second.
fn spans(own: Pace, other: Pace, duration: u32) -> bool
    ensures { result ≡ rules.spans own other duration }
{
    match (own, other) {
        (Pace::Every(p), Pace::Event) => has_panes(p, duration),
        _ => false,
    }
}

// Whether a duration is 1 to 16 panes of a period.
fn has_panes(period: u32, duration: u32) -> bool
    ensures { result ≡ asking.has_panes period duration }
{
    if period == 0 {
        return false;
    }
    duration.is_multiple_of(period) && (1..=16).contains(&(duration / period))
}

impl Parts {
    // When a stream goes: an input, like an event-based output, with readings.
    fn pace_of(&self, stream: u8) -> Pace
        ensures { result ≡ rules.pace_of (views.said self.now) stream }
    {
        let Some(a) = (stream as usize).checked_sub(self.inputs.len()) else {
            return Pace::Event;
        };
        match self.outputs.as_slice().get(a) {
            Some(output) => output.pace,
            None => Pace::Event,
        }
    }

    // Whether there is such a stream.
    fn has_stream(&self, stream: u8) -> bool
        ensures { result ≡ asking.has_stream (views.said self.now) stream }
    {
        (stream as usize) < self.inputs.len() + self.outputs.len()
    }

    // Whether an operation may stand in the output that is stream `me` and has this pace.
    fn may(&self, me: usize, pace: Pace, op: Op) -> bool
        ensures { result ≡ rules.may (views.said self.now) me pace op }
    {
        match op {
            Op::Now { stream } => {
                self.has_stream(stream)
                    && stream as usize != me
                    && keeps_pace(pace, self.pace_of(stream))
            }
            Op::Past { stream, .. } => {
                self.has_stream(stream)
                    && (stream as usize == me || keeps_pace(pace, self.pace_of(stream)))
            }
            Op::Held { stream, .. } => self.has_stream(stream) && stream as usize != me,
            Op::Window {
                stream,
                duration,
                ..
            } => {
                self.has_stream(stream)
                    && stream as usize != me
                    && spans(pace, self.pace_of(stream), duration)
            }
            _ => true,
        }
    }

    // Whether every operation may stand in the output that is stream `me`.
    fn all_may(&self, me: usize, output: &Output) -> bool
        ensures { result ≡ rules.all (rules.may (views.said self.now) me output.now.pace) (listed output.now.program) }
    {
        output
            .program
            .ops
            .as_slice()
            .iter()
            .all(|op| self.may(me, output.pace, *op))
    }

    // Whether the output that is stream `me` keeps the rules.
    pub(crate) fn output_keeps(&self, me: usize, output: &Output) -> bool
        ensures { result ≡ rules.output_keeps (views.said self.now) me (views.output_of output.now) }
    {
        self.all_may(me, output) && driven(me, output.pace, &output.program)
    }

    // Whether a trigger names an output.
    pub(crate) fn trigger_keeps(&self, trigger: &Trigger) -> bool
        ensures { result ≡ rules.trigger_keeps (views.said self.now) (views.trigger_of trigger.now) }
    {
        trigger.stream as usize >= self.inputs.len() && self.has_stream(trigger.stream)
    }
}

// Whether an operation uses now or past on another stream.
fn meets_other(me: usize, op: Op) -> bool
    ensures { result ≡ rules.meets_other me op }
{
    match op {
        Op::Now { stream } | Op::Past { stream, .. } => stream as usize != me,
        _ => false,
    }
}

// Whether any operation uses now or past on another stream.
fn any_meets_other(me: usize, program: &Program) -> bool
    ensures { result ≡ rules.any (rules.meets_other me) (listed program.now) }
{
    program.ops.as_slice().iter().any(|op| meets_other(me, *op))
}

// Whether an output is driven by another stream, where it is event-based.
fn driven(me: usize, pace: Pace, program: &Program) -> bool
    ensures { result ≡ rules.driven me pace (listed program.now) }
{
    match pace {
        Pace::Event => any_meets_other(me, program),
        Pace::Every(_) => true,
    }
}
