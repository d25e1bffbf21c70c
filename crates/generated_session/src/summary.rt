//! The line that sums up a generated session.

ghost use Rattle.std.specs.Prelude.{◌≡◌, ◌≤◌, map};
ghost use Rattle.std.specs.Fmt.{decimal};
ghost use Rattle.wind_outside.specs.Counts.{Rose};
ghost use Rattle.wind_outside.specs.declared.sink.Put.TheVariants as puts;
ghost use Rattle.generated_session.specs.Puts.{PutsTexts, sink_log};
ghost use Rattle.generated_session.specs.Session.{most_rounds, summary_texts};

use itoa::Buffer;
use wind_outside::{Put, Sink};

/// What the line reports.
#[derive(Clone, Copy)]
pub struct Summary {
    /// How many rounds the session has.
    pub rounds: u32,
    /// How many bytes the run wrote.
    pub bytes: u128,
    /// How many steps the run made.
    pub steps: u64,
    /// How many ticks occurred.
    pub ticks: u64,
    /// The number of the run's status.
    pub status: u8,
}

/// Puts pieces one after the other, and stops at the first put that fails.
pub fn put_all<O: Sink>(out: &mut O, pieces: &[&[u8]]) -> Put
    ensures puts { PutsTexts result (map (λ p. p.now) pieces.now)
        (sink_log ⟦<O as Sink>⟧ out.old) (sink_log ⟦<O as Sink>⟧ out.new) }
    ensures failed { result ≡ puts.Failed → Rose (O.faults out.old) (O.faults out.new) }
    ensures never_falls { O.faults out.old ≤ O.faults out.new }
{
    for piece in pieces {
        match out.put(piece) {
            Put::Failed => return Put::Failed,
            Put::Done => {}
        }
    }
    Put::Done
}

// The digits of a number.
fn digits(buffer: &mut Buffer, number: u128) -> &[u8]
    ensures { result.now ≡ decimal number }
{
    buffer.format(number).as_bytes()
}

impl Summary {
    /// Puts the line piece by piece, and stops at the first piece that fails.
    pub fn put<O: Sink>(&self, out: &mut O) -> Put
        requires { self.now.rounds ≤ most_rounds }
        ensures puts { PutsTexts result
            (summary_texts self.now.rounds self.now.bytes self.now.steps self.now.ticks self.now.status)
            (sink_log ⟦<O as Sink>⟧ out.old) (sink_log ⟦<O as Sink>⟧ out.new) }
        ensures failed { result ≡ puts.Failed → Rose (O.faults out.old) (O.faults out.new) }
        ensures never_falls { O.faults out.old ≤ O.faults out.new }
    {
        let (mut rounds, mut lines, mut bytes) = (Buffer::new(), Buffer::new(), Buffer::new());
        let (mut steps, mut ticks, mut status) = (Buffer::new(), Buffer::new(), Buffer::new());
        put_all(
            out,
            &[
                b"generated ",
                digits(&mut rounds, self.rounds as u128),
                b": ",
                digits(&mut lines, (3 * self.rounds + 3) as u128),
                b" lines, ",
                digits(&mut bytes, self.bytes),
                b" console bytes, ",
                digits(&mut steps, self.steps as u128),
                b" steps, ",
                digits(&mut ticks, self.ticks as u128),
                b" ticks, status ",
                digits(&mut status, self.status as u128),
                b"\n",
            ],
        )
    }
}
