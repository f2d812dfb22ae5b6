// What is told of a long run.
ghost use Rattle.std.specs.Prelude.{◌≡◌, ◌^◌, ◌≤◌, false, None};

use machine::Watch;
use std::time::{Duration, Instant};

// Runs of no more steps than this are over before anybody wonders.
const SHORT: u64 = 1 << 28;

// Tells on standard error, once a second, how far a run has come.
#[derive(Drop)]
pub struct Progress<'a> {
    rt: &'a HostRuntime,
    name: &'a str,
    steps: u64,
    told: Option<Instant>,
}

impl<'a> Progress<'a> {
    // Of a run that is told under the program's name; the next line is due in a second.
    pub fn new(rt: &'a HostRuntime, name: &'a str, steps: u64) -> Progress<'a>
        ensures { (result.name.now ≡ name.now) × (result.steps ≡ steps) }
    {
        let told = Instant::now(rt).ok();
        Progress {
            rt,
            name,
            steps,
            told,
        }
    }

    // Whether a second has gone by since the last line.
    fn is_due(&self) -> bool
        ensures { self.now.told ≡ None → result ≡ false }
    {
        self.told.is_some_and(|told| {
            told.elapsed(self.rt)
                .is_ok_and(|time| time >= Duration::from_secs(1))
        })
    }
}

impl Watch for Progress<'_> {
    // A line that cannot be written is no reason to stop.
    fn done(&mut self, steps: u64)
        ensures same { self.new.steps ≡ self.old.steps }
        ensures short { self.old.steps ≤ 2 ^ 28 → self.new ≡ self.old }
    {
        if self.steps <= SHORT || !self.is_due() {
            return;
        }
        let _ = eprintln!(self.rt; "{}: {steps} of {} steps", self.name, self.steps);
        self.told = Instant::now(self.rt).ok();
    }
}
