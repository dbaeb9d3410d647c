//! The telling of a recording line by line.

ghost use Rattle.std.specs.Prelude.{◌≡◌, ◌+◌, [], None, OnOk};
ghost use Rattle.qic_base.specs.SinkCalls.{Writes};
ghost use Rattle.pulse_dialogue.specs.declared.context.Context.TheVariants.{Nothing};
ghost use Rattle.pulse_dialogue.specs.Dialogue.{IsSound, sample_line, heard_level};
ghost use Rattle.pulse_dialogue.specs.Telling.{HasRoom, continues, ended_text, ended_context, told_at, after_line};

use crate::context::Context;
use crate::line::Line;
use qic_base::{Sink, SinkFailed, write_text};
use std::mem::replace;
use tape_script::TextLine;

/// A train that the next pulse may continue: the times of its first pulse and of its last, and the number of its
/// pulses.
#[derive(Clone, Copy)]
pub struct OpenTrain {
    pub first: u32,
    pub last: u32,
    pub count: u32,
}

/// What is kept of the lines so far: the gap, the time of the last line, the train that it may belong to, and the
/// context before that train.
#[derive(Drop)]
pub struct Teller {
    pub gap: u32,
    pub time: u32,
    pub open_train: Option<OpenTrain>,
    pub context: Context,
}

impl Teller {
    /// Before any line.
    pub fn new(gap: u32) -> Teller
        ensures { result ≡ record { gap = gap; time = 0; open_train = None; context = Nothing } }
    {
        Teller {
            gap,
            time: 0,
            open_train: None,
            context: Context::Nothing,
        }
    }

    /// Whether a pulse at this time belongs to the open train.
    fn continues(&self, time: u32) -> bool
        ensures { result ≡ continues self.now.gap self.now.open_train time }
    {
        match self.open_train {
            Some(open_train) => time.saturating_sub(open_train.last) <= self.gap,
            None => false,
        }
    }

    /// Puts what the end of the open train says into the line.
    fn close(&mut self, line: &mut TextLine)
        requires empty { line.old ≡ [] }
        requires sound { IsSound self.old.context }
        ensures text { line.new ≡ ended_text self.old.context self.old.open_train }
        ensures teller { self.new ≡ record self.old {
          open_train = None;
          context = ended_context self.old.context self.old.open_train;
        } }
        ensures sound { IsSound self.new.context }
    {
        if let Some(open_train) = self.open_train {
            self.open_train = None;
            let count = open_train.count.min(255) as u8;
            line.push_number(u64::from(open_train.first));
            line.push_text(b" ");
            line.push_number(u64::from(count));
            line.push_text(b" ");
            self.context = replace(&mut self.context, Context::Nothing).tell_train(count, line);
            line.push_text(b"\n");
        }
    }

    /// Ends the open train, if there is one, and writes what it says.
    pub fn end_train<K: Sink>(&mut self, sink: &mut K) -> Result<(), SinkFailed>
        requires { IsSound self.old.context }
        ensures wrote { Writes K.means sink.old sink.new
            (ended_text self.old.context self.old.open_train) result }
        ensures teller { self.new ≡ record self.old {
          open_train = None;
          context = ended_context self.old.context self.old.open_train;
        } }
        ensures sound { IsSound self.new.context }
    {
        let mut line = TextLine::new();
        self.close(&mut line);
        write_text(line.bytes(), sink)
    }

    /// A pulse of the open train, or the first of another.
    fn tell_pulse<K: Sink>(&mut self, time: u32, sink: &mut K) -> Result<(), SinkFailed>
        requires sound { IsSound self.old.context }
        requires room { HasRoom self.old.open_train }
        ensures wrote { Writes K.means sink.old sink.new (told_at self.old (Line.Pulse time)) result }
        ensures teller { OnOk result (self.new ≡ after_line self.old (Line.Pulse time)) }
        ensures sound { IsSound self.new.context }
    {
        if self.continues(time) {
            self.time = time;
            if let Some(open_train) = &mut self.open_train {
                open_train.last = time;
                open_train.count += 1;
            }
            return Ok(());
        }
        self.end_train(sink)?;
        self.time = time;
        self.open_train = Some(OpenTrain {
            first: time,
            last: time,
            count: 1,
        });
        Ok(())
    }

    /// A sample with no train before it may say something itself.
    fn tell_here<K: Sink>(&mut self, time: u32, level: bool, sink: &mut K) -> Result<(), SinkFailed>
        requires { IsSound self.old.context }
        ensures wrote { Writes K.means sink.old sink.new
            (sample_line time (heard_level self.old.context level).text) result }
        ensures teller { self.new ≡ record self.old {
          time = time;
          context = (heard_level self.old.context level).context;
        } }
        ensures sound { IsSound self.new.context }
    {
        self.time = time;
        let mut line = TextLine::new();
        self.context = replace(&mut self.context, Context::Nothing).tell_level(
            time, level, &mut line,
        );
        write_text(line.bytes(), sink)
    }

    /// A sample ends the open train.
    fn tell_sample<K: Sink>(
        &mut self,
        time: u32,
        level: bool,
        sink: &mut K,
    ) -> Result<(), SinkFailed>
        requires { IsSound self.old.context }
        ensures wrote { Writes K.means sink.old sink.new (told_at self.old (Line.Sample time level)) result }
        ensures teller { OnOk result (self.new ≡ after_line self.old (Line.Sample time level)) }
        ensures sound { IsSound self.new.context }
    {
        match self.end_train(sink) {
            Ok(()) => self.tell_here(time, level, sink),
            Err(fault) => Err(fault),
        }
    }

    /// Writes what is said by the line that comes next, at once.
    pub fn tell<K: Sink>(&mut self, line: Line, sink: &mut K) -> Result<(), SinkFailed>
        requires sound { IsSound self.old.context }
        requires room { HasRoom self.old.open_train }
        ensures wrote { Writes K.means sink.old sink.new (told_at self.old line) result }
        ensures teller { OnOk result (self.new ≡ after_line self.old line) }
        ensures sound { IsSound self.new.context }
    {
        match line {
            Line::Pulse { time } => self.tell_pulse(time, sink),
            Line::Sample { time, level } => self.tell_sample(time, level, sink),
        }
    }
}
