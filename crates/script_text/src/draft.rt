//! What the lines read so far say.

ghost use Rattle.std.specs.Prelude.{◌≡◌, ◌≤◌, ◌+◌, OnOk};
ghost use Rattle.script_text.specs.Grammar.{no_steps};
ghost use Rattle.script_text.specs.SoFar.{no_lines, said_with, script_said, setting_with, step_with, MadeBefore};

use crate::limits::{MOST_COUNT, USUAL_HOLD, USUAL_TIMEOUT};
use crate::lines::{Line, Setting};
use crate::numbers::NextNumbers;
use crate::reading::LONGEST_SCRIPT;
use crate::steps::{Script, Step};
use engine_config::{Config, DialTo};
use gate_io::{MOST_DIALLED, NoMemory, Rows};
use lease_core::MOST_LEASES;
use lease_words::LANE_SLOTS;
use session_core::Names;
use std::alloc::Global;
use std::marker::Model;

/// The script so far, and what the next line is put to.
#[derive(Drop)]
pub(crate) struct Draft {
    names: Vec<Names>,
    dialled: Vec<Option<DialTo>>,
    session_lines: Vec<u32>,
    limits: Limits,
    steps: Vec<Step>,
    step_lines: Vec<u32>,
    next: NextNumbers,
    moment: u64,
}

/// The numbers of the configuration.
#[derive(Clone, Copy)]
struct Limits {
    libraries: u8,
    connections: u32,
    lane: u8,
    leases: u32,
    sends: u32,
    asks: u32,
    timeout: u64,
    hold: u64,
    dials: u32,
}

/// The numbers of the configuration without a line.
const NO_LINE: Limits = Limits {
    libraries: 0,
    connections: 0,
    lane: LANE_SLOTS as u8,
    leases: MOST_LEASES,
    sends: MOST_COUNT,
    asks: MOST_COUNT,
    timeout: USUAL_TIMEOUT,
    hold: USUAL_HOLD,
    dials: 0,
};

impl Limits {
    /// Those of a replay with so many `connect` lines.
    fn of_replay(self, connects: u32) -> Limits
        ensures { result ≡ record self { connections = connects; dials = MOST_DIALLED } }
    {
        let mut limits = self;
        limits.connections = connects;
        limits.dials = MOST_DIALLED;
        limits
    }
}

impl Model for Draft {
    ghost use Rattle.script_text.specs.SoFar.{SoFar};

    ghost Value = { SoFar };

    ghost view = { λ d. record {
      script = record {
        config = record {
          names = d.names.items;
          libraries = d.limits.libraries;
          connections = d.limits.connections;
          lane = d.limits.lane;
          leases = d.limits.leases;
          sends = d.limits.sends;
          asks = d.limits.asks;
          timeout = d.limits.timeout;
          hold = d.limits.hold;
          dialled = d.dialled.items;
          dials = d.limits.dials;
        };
        steps = d.steps.items;
        session_lines = d.session_lines.items;
        step_lines = d.step_lines.items;
      };
      next = d.next;
      moment = d.moment;
    } };
}

impl Draft {
    /// Before the first line.
    pub(crate) fn new(alloc: Global) -> Draft
        ensures { result ≡ no_lines }
    {
        Draft {
            names: Vec::new(alloc),
            dialled: Vec::new(alloc),
            session_lines: Vec::new(alloc),
            limits: NO_LINE,
            steps: Vec::new(alloc),
            step_lines: Vec::new(alloc),
            next: NextNumbers::new(),
            moment: 0,
        }
    }

    pub(crate) fn names(&self) -> &[Names]
        ensures { result.now ≡ (self.now).script.config.names }
    {
        self.names.as_slice()
    }

    pub(crate) fn libraries(&self) -> u8
        ensures { result ≡ (self.now).script.config.libraries }
    {
        self.limits.libraries
    }

    /// Whether no line that is a step was read.
    pub(crate) fn has_no_steps(&self) -> bool
        ensures { result ≡ no_steps self.now }
    {
        self.steps.is_empty()
    }

    /// The numbers of the next connections.
    pub(crate) fn next(&self) -> NextNumbers
        ensures { result ≡ (self.now).next }
    {
        self.next
    }

    /// The present moment.
    pub(crate) fn moment(&self) -> u64
        ensures { result ≡ (self.now).moment }
    {
        self.moment
    }

    /// Adds what the line with this number says.
    #[tactic(auto, unfolding(crate::specs::SoFar::said_with))]
    pub(crate) fn put(&mut self, number: u32, line: Line) -> Result<(), NoMemory>
        requires number { number ≤ LONGEST_SCRIPT }
        requires made { MadeBefore number (self.old).next }
        ensures said { OnOk result (self.new ≡ said_with number line self.old) }
        ensures made { MadeBefore (number + 1) (self.new).next }
    {
        match line {
            Line::Blank => Ok(()),
            Line::Config(setting) => self.set(number, setting),
            Line::Step(step) => self.push(number, step),
        }
    }

    /// Adds what a line of the configuration sets.
    fn set(&mut self, number: u32, setting: Setting) -> Result<(), NoMemory>
        ensures said { OnOk result (self.new ≡ setting_with number setting self.old) }
        ensures next { (self.new).next ≡ (self.old).next }
    {
        match setting {
            Setting::Session(names, to) => {
                self.names.push(names)?;
                self.dialled.push(to)?;
                self.session_lines.push(number)?;
            }
            Setting::Libraries(n) => self.limits.libraries = n,
            Setting::Connections(n) => self.limits.connections = n,
            Setting::Dials(n) => self.limits.dials = n,
            Setting::Lane(n) => self.limits.lane = n,
            Setting::Leases(n) => self.limits.leases = n,
            Setting::Sends(n) => self.limits.sends = n,
            Setting::Asks(n) => self.limits.asks = n,
            Setting::Timeout(ms) => self.limits.timeout = ms,
            Setting::Hold(ms) => self.limits.hold = ms,
        }
        Ok(())
    }

    /// Adds a step.
    fn push(&mut self, number: u32, step: Step) -> Result<(), NoMemory>
        requires number { number ≤ LONGEST_SCRIPT }
        requires made { MadeBefore number (self.old).next }
        ensures said { OnOk result (self.new ≡ step_with number step self.old) }
        ensures made { MadeBefore (number + 1) (self.new).next }
    {
        match &step {
            Step::At { moment } => self.moment = *moment,
            Step::Connect => self.next.connect += 1,
            Step::Take => self.next.take += 1,
            _ => {}
        }
        self.steps.push(step)?;
        self.step_lines.push(number)?;
        Ok(())
    }

    /// The script of all lines.
    pub(crate) fn finish(self, serving: bool) -> Script
        ensures { result ≡ script_said serving self }
    {
        let limits = if serving {
            self.limits
        } else {
            self.limits.of_replay(self.next.connect)
        };
        Script {
            config: Config {
                names: Rows::of(self.names),
                libraries: limits.libraries,
                connections: limits.connections,
                lane: limits.lane,
                leases: limits.leases,
                sends: limits.sends,
                asks: limits.asks,
                timeout: limits.timeout,
                hold: limits.hold,
                dialled: Rows::of(self.dialled),
                dials: limits.dials,
            },
            steps: Rows::of(self.steps),
            session_lines: Rows::of(self.session_lines),
            step_lines: Rows::of(self.step_lines),
        }
    }
}
